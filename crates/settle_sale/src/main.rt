// settle_sale FILE: opens the sale of a file, takes its messages, closes it, and prints what comes of it.
#![tactic(auto)]

mod telling;

use std::process::ExitCode;
use std::{env, fs};
use telling::tell;

const USAGE: &str = "usage: settle_sale FILE | --help";

const HELP: &str = "usage: settle_sale FILE

Opens the sale that FILE describes, takes its messages in their order, closes it, and
prints

  message K refused N at P    for each message that is refused: its number in the
                              file from 0, the number of the check that it fails,
                              and the place of the fault
  worth W                     the worth of the award
  farm I line L pays C has A  for each farm: the number of the line of its sheet that
                              it is awarded, from 1, or 0 for none; what it pays; and
                              its account then
  company A                   the company's account then

or, where the sale is not opened or not closed, in place of the lines from worth on,

  sale refused N at P

A sale whose table has more than 8,192 entries (the number of bundles times one more than
the number of farms) is not closed: 15 at 0. The formats and the numbers are in
docs/FORMATS.md. The status is 0 where the sale is closed, and 1 where it is not or FILE
cannot be read.
";

// The entries of the largest table that there is room for.
const TABLE_ENTRIES: usize = 8192;

// A sale that is not closed ends with status 1.
fn close(rt: &HostRuntime, file: &[u8]) -> anyhow::Result<ExitCode> {
    let told = tell(rt.alloc(), file, TABLE_ENTRIES)?;
    let text = told.text.as_str();
    print!(rt; "{text}")?;
    if told.closed {
        Ok(ExitCode::SUCCESS)
    } else {
        Ok(ExitCode::FAILURE)
    }
}

// This and `main` stand in close_sale too: a library's function that only reads and prints would have no contract.
fn close_file(rt: &HostRuntime, path: &str) -> anyhow::Result<ExitCode> {
    match fs::read(rt, path) {
        Ok(file) => close(rt, &file),
        Err(error) => {
            eprintln!(rt; "settle_sale: {path}: {error}")?;
            Ok(ExitCode::FAILURE)
        }
    }
}

fn main(rt: HostRuntime) -> anyhow::Result<ExitCode> {
    let mut args = env::args(&rt)?;
    let _program = args.next();
    let Some(first) = args.next() else {
        eprintln!(rt; "settle_sale: no file is named\n{USAGE}")?;
        return Ok(ExitCode::FAILURE);
    };
    if args.next().is_some() {
        eprintln!(rt; "settle_sale: one file at a time\n{USAGE}")?;
        return Ok(ExitCode::FAILURE);
    }
    if first.as_str() == "--help" {
        print!(rt; "{HELP}")?;
        return Ok(ExitCode::SUCCESS);
    }
    close_file(&rt, first.as_str())
}

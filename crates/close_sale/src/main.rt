// close_sale FILE: opens the sale of a file, takes its messages, and prints which are refused.
#![tactic(auto)]

use book::Answer;
use report::{AnswerLine, Report};
use sale::Sale;
use session::{RunRefusal, message_count, run};
use std::process::ExitCode;
use std::{env, fs, io};

const USAGE: &str = "usage: close_sale FILE | --help";

const HELP: &str = "usage: close_sale FILE

Opens the sale that FILE describes, takes its messages in their order, and prints

  message K refused N at P    for each message that is refused: its number in the
                              file from 0, the number of the check that it fails,
                              and the place of the fault
  sheets N                    the number of farms whose sheet has at least one line

or, where the opening is refused,

  sale refused N at P

The formats and the numbers are in docs/FORMATS.md. The status is 0 where the sale is
opened, and 1 where it is refused or FILE cannot be read.
";

// The lines of the messages that are refused, each printed by itself, so that none is cut where a later one is not written.
fn print_refused(rt: &HostRuntime, answers: &[Answer]) -> io::Result<()> {
    for (message, answer) in answers.iter().enumerate() {
        if answer.is_err() {
            let line = AnswerLine {
                message,
                answer: *answer,
            };
            print!(rt; "{line}")?;
        }
    }
    Ok(())
}

fn print_sale(rt: &HostRuntime, sale: &Sale, answers: &[Answer]) -> io::Result<ExitCode> {
    print_refused(rt, answers)?;
    let sheets = sale.standing();
    println!(rt; "sheets {sheets}")?;
    Ok(ExitCode::SUCCESS)
}

// A refused sale is told of on standard output, and ends with status 1.
fn print_refusal(rt: &HostRuntime, refusal: RunRefusal) -> io::Result<ExitCode> {
    match refusal {
        RunRefusal::Opening(refusal) => {
            let report = Report::from(refusal);
            print!(rt; "{report}")?;
        }
        RunRefusal::Room(count) => eprintln!(rt; "close_sale: no room for {count} answers")?,
    }
    Ok(ExitCode::FAILURE)
}

fn close(rt: &HostRuntime, file: &[u8]) -> anyhow::Result<ExitCode> {
    let mut answers = vec![in rt.alloc(); Ok(()); message_count(file)]?;
    match run(file, &mut answers) {
        Ok(sale) => Ok(print_sale(rt, &sale, &answers)?),
        Err(refusal) => Ok(print_refusal(rt, refusal)?),
    }
}

// This and `main` stand in settle_sale too: a library's function that only reads and prints would have no contract.
fn close_file(rt: &HostRuntime, path: &str) -> anyhow::Result<ExitCode> {
    match fs::read(rt, path) {
        Ok(file) => close(rt, &file),
        Err(error) => {
            eprintln!(rt; "close_sale: {path}: {error}")?;
            Ok(ExitCode::FAILURE)
        }
    }
}

fn main(rt: HostRuntime) -> anyhow::Result<ExitCode> {
    let mut args = env::args(&rt)?;
    let _program = args.next();
    let Some(first) = args.next() else {
        eprintln!(rt; "close_sale: no file is named\n{USAGE}")?;
        return Ok(ExitCode::FAILURE);
    };
    if args.next().is_some() {
        eprintln!(rt; "close_sale: one file at a time\n{USAGE}")?;
        return Ok(ExitCode::FAILURE);
    }
    if first.as_str() == "--help" {
        print!(rt; "{HELP}")?;
        return Ok(ExitCode::SUCCESS);
    }
    close_file(&rt, first.as_str())
}

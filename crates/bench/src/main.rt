// bench: how long filling the table takes for sales of the largest size.
#![tactic(auto)]

mod random;
mod sales;

use sales::{LargeSale, SALES};
use std::env;
use std::process::ExitCode;
use std::time::{Duration, Instant};

const USAGE: &str = "usage: bench [--check | --help]";

const HELP: &str = "usage: bench [--check]

Fills the table of best worths for two sales of the largest size, each with 48 farms,
32 lines a farm and 4,096 bundles, and prints for each, in microseconds, how long

  fill                   takes: the table alone
  fill with marginals    takes: the table, and the worths without each farm

on average over five rounds, a few seconds in all. The lines of the sheets are drawn at
random, the same in every run.

With --check it fills each table once and prints what does not depend on time: the number
of bundles, the worth of the best choice, and the sum of the worths without each farm.
";

const ROUNDS: u32 = 5;

fn for_each_sale<F: Fn(LargeSale) -> anyhow::Result<()>>(
    rt: &HostRuntime,
    show: F,
) -> anyhow::Result<ExitCode>
    requires { F.IsAlwaysCallable show }
{
    for terms in &SALES {
        show(LargeSale::new(rt.alloc(), terms)?)?;
    }
    Ok(ExitCode::SUCCESS)
}

// How long a run takes, on average over the rounds.
fn time<F: FnMut() -> anyhow::Result<()>>(rt: &HostRuntime, mut run: F) -> anyhow::Result<Duration>
    requires { F.IsAlwaysCallable run }
{
    let start = Instant::now(rt)?;
    for _ in 0..ROUNDS {
        run()?;
    }
    Ok(start.elapsed(rt)? / ROUNDS)
}

fn measure(rt: &HostRuntime, mut sale: LargeSale) -> anyhow::Result<()> {
    let filling = time(rt, || sale.fill())?.as_micros();
    println!(rt; "{}: fill {filling} us", sale.name)?;
    let marginals = time(rt, || sale.fill_with_marginals())?.as_micros();
    println!(rt; "{}: fill with marginals {marginals} us", sale.name)?;
    Ok(())
}

fn check(rt: &HostRuntime, mut sale: LargeSale) -> anyhow::Result<()> {
    let bundles = sale.bundles();
    sale.fill()?;
    let worth = sale.best_worth();
    sale.fill_with_marginals()?;
    let marginals = sale.marginals();
    let name = sale.name;
    println!(rt; "{name}: {bundles} bundles, worth {worth}, without each farm {marginals}")?;
    Ok(())
}

// Reads the arguments, as close_sale and settle_sale do for theirs: a library's function that only reads and prints would have no contract.
fn main(rt: HostRuntime) -> anyhow::Result<ExitCode> {
    let mut args = env::args(&rt)?;
    let _program = args.next();
    let Some(word) = args.next() else {
        return for_each_sale(&rt, |sale| measure(&rt, sale));
    };
    if args.next().is_some() {
        eprintln!(rt; "bench: one argument at most\n{USAGE}")?;
        return Ok(ExitCode::FAILURE);
    }
    match word.as_str() {
        "--check" => for_each_sale(&rt, |sale| check(&rt, sale)),
        "--help" => {
            print!(rt; "{HELP}")?;
            Ok(ExitCode::SUCCESS)
        }
        other => {
            eprintln!(rt; "bench: unknown argument {other}\n{USAGE}")?;
            Ok(ExitCode::FAILURE)
        }
    }
}

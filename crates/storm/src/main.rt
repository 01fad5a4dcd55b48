#![tactic(auto)]

// Plays random nets of a server and clients to the simulation, and prints what happened in them: first with every premise kept, then with each broken.
mod acts;
mod breaking;
mod crashes;
mod net;
mod parties;
mod plan;
mod random;
mod run;
mod show;
mod span;
mod stage;
mod tally;
mod time;
mod verdict;

use breaking::break_each;
use printing::Printer;
use run::run;
use show::show;
use std::io::Write;
use std::process::ExitCode;
use std::{env, io};
use system::Line;
use tally::Tally;

const USAGE: &str = "usage: storm [RUNS [SEED]]
Makes random scripts of a server and 2 to 12 clients whose messages are lost, late and repeated, who crash and restart, and whose clocks run apart, and plays each to the simulation.
Prints what happened in all of them, and then which premises are reported as broken in runs that break them.
RUNS is 2000 and SEED is 1 where none is given.
Ends with status 1 where a run that keeps the premises is reported to break one, or to have an address that two use.";

const RUNS: u64 = 2000;

const SEED: u64 = 1;

// After so many runs standard error is told how many there were.
const NEWS: u64 = 10_000;

fn show_refused(rt: &HostRuntime, seed: u64, number: u64, line: Line) -> io::Result<()> {
    print!(rt; "seed {seed}, run {number}: ")?;
    let mut printer = Printer::new(rt.alloc());
    printer.put(line)?;
    rt.stdout().write_all(printer.text()?.as_bytes())
}

// Runs that keep every premise, and whether each is reported to.
fn keep_all(rt: &HostRuntime, runs: u64, seed: u64) -> io::Result<bool> {
    let mut tally = Tally::default();
    for number in 0..runs {
        let verdict = run(rt.alloc(), seed, number, None, &mut tally)?;
        if let Some(line) = verdict.refused() {
            show_refused(rt, seed, number, line)?;
            return Ok(false);
        }
        if number % NEWS == NEWS - 1 {
            eprintln!(rt; "{} runs", tally.runs)?;
        }
    }
    show(rt, &tally)?;
    println!(rt; "premises broken 0, addresses that two used 0")?;
    Ok(true)
}

fn storm(rt: &HostRuntime, runs: u64, seed: u64) -> io::Result<ExitCode> {
    if !keep_all(rt, runs, seed)? {
        return Ok(ExitCode::FAILURE);
    }
    println!(rt; "with a premise broken on purpose:")?;
    if break_each(rt, seed)? {
        return Ok(ExitCode::SUCCESS);
    }
    println!(rt; "a broken premise was not reported")?;
    Ok(ExitCode::FAILURE)
}

fn refuse(rt: &HostRuntime) -> io::Result<ExitCode> {
    eprintln!(rt; "{USAGE}")?;
    Ok(ExitCode::FAILURE)
}

fn obey(rt: &HostRuntime) -> io::Result<ExitCode> {
    let mut args = env::args(rt)?.skip(1);
    let mut numbers = [RUNS, SEED];
    for number in &mut numbers {
        let Some(word) = args.next() else {
            break;
        };
        if word.as_str() == "--help" {
            println!(rt; "{USAGE}")?;
            return Ok(ExitCode::SUCCESS);
        }
        let Ok(given) = word.as_str().parse() else {
            return refuse(rt);
        };
        *number = given;
    }
    if args.next().is_some() {
        return refuse(rt);
    }
    let [runs, seed] = numbers;
    storm(rt, runs, seed)
}

// Where memory or standard output fails, or a run's script can't be read, nothing is told.
fn main(rt: HostRuntime) -> ExitCode {
    obey(&rt).unwrap_or(ExitCode::FAILURE)
}

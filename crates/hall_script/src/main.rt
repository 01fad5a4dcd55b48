#![tactic(auto)]

// Plays a script from standard input, and prints what is reported of the run.
use printing::{Printer, is_two};
use replay::{Stopped, play};
use std::io::{Read, Write};
use std::process::ExitCode;
use std::{env, io};
use system::Line;

const USAGE: &str = "usage: hall < SCRIPT
Plays a script of messages to a server and 64 clients, and prints who uses which address at each tick of the server.
An entry of a script is who (1 byte: 0 the server, 1 to 64 a client), the message's length (1 byte) and the message.
Ends with status 1 where two used one address or the script can't be read.";

// Prints a report; the program fails where it names an address that two use.
fn show(rt: &HostRuntime, report: &[Line]) -> io::Result<ExitCode> {
    let mut printer = Printer::new(rt.alloc());
    for line in report {
        printer.put(*line)?;
    }
    // at once: print! writes a thousand bytes at a time
    rt.stdout().write_all(printer.text()?.as_bytes())?;
    if report.iter().any(|line| is_two(*line)) {
        return Ok(ExitCode::FAILURE);
    }
    Ok(ExitCode::SUCCESS)
}

fn run(rt: &HostRuntime) -> io::Result<ExitCode> {
    let heap = rt.alloc();
    let mut script = Vec::new(heap);
    rt.stdin().read_to_end(&mut script)?;
    let mut report = Vec::new(heap);
    match play(heap, &script, &mut report) {
        Ok(()) => return show(rt, &report),
        Err(stopped @ Stopped::NoMemory) => eprintln!(rt; "hall: {stopped}")?,
        Err(stopped) => println!(rt; "{stopped}")?,
    }
    Ok(ExitCode::FAILURE)
}

// hall and box take no arguments both; a crate for these lines alone would be no plainer.
fn obey(rt: &HostRuntime) -> io::Result<ExitCode> {
    let mut args = env::args(rt)?.skip(1);
    let Some(word) = args.next() else {
        return run(rt);
    };
    if word.as_str() == "--help" && args.next().is_none() {
        println!(rt; "{USAGE}")?;
        return Ok(ExitCode::SUCCESS);
    }
    eprintln!(rt; "{USAGE}")?;
    Ok(ExitCode::FAILURE)
}

// Where standard input or output fails, or the memory for either's text, nothing is told.
fn main(rt: HostRuntime) -> ExitCode {
    obey(&rt).unwrap_or(ExitCode::FAILURE)
}

#![tactic(auto)]

// A client: messages from standard input, messages to standard output.
mod shell;

use shell::Shell;
use std::process::ExitCode;
use std::{env, io};
use stream::{Outbox, serve};

const USAGE: &str = "usage: box
A client that has an address lent: hears messages on standard input, and puts out its requests and what it uses on standard output.";

fn borrow(rt: &HostRuntime) -> io::Result<ExitCode> {
    let heap = rt.alloc();
    let mut shell = Shell::new(heap, Outbox::new(heap, rt.stdout()));
    if let Err(halt) = serve(rt, &mut shell) {
        eprintln!(rt; "box: {halt}")?;
        return Ok(ExitCode::FAILURE);
    }
    Ok(ExitCode::SUCCESS)
}

// hall and box take no arguments both; a crate for these lines alone would be no plainer.
fn obey(rt: &HostRuntime) -> io::Result<ExitCode> {
    let mut args = env::args(rt)?.skip(1);
    let Some(word) = args.next() else {
        return borrow(rt);
    };
    if word.as_str() == "--help" && args.next().is_none() {
        println!(rt; "{USAGE}")?;
        return Ok(ExitCode::SUCCESS);
    }
    eprintln!(rt; "{USAGE}")?;
    Ok(ExitCode::FAILURE)
}

fn main(rt: HostRuntime) -> ExitCode {
    obey(&rt).unwrap_or(ExitCode::FAILURE)
}

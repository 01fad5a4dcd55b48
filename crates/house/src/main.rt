#![tactic(auto)]

// A server: messages from standard input, its device in a file, messages to standard output.
mod device;
mod file;
mod outside;
mod perform;
mod shell;

use device::{Unusable, open};
use file::FileOutside;
use server::Server;
use shell::Shell;
use std::io::ErrorKind;
use std::process::ExitCode;
use std::{env, io};
use stream::{Halt, Outbox, Stop, serve};

const USAGE: &str = "usage: house DEVICE
A server of addresses: hears messages on standard input and answers on standard output.
DEVICE is the file of its lease table, 229376 bytes; make a new one with
    head -c 229376 /dev/zero > DEVICE";

// How to make a device is told only where there is none.
fn tell_unusable(rt: &HostRuntime, path: &str, why: Unusable) -> io::Result<()> {
    match why {
        Unusable::NoMemory => return eprintln!(rt; "house: {why}"),
        Unusable::Failed(e) if e.kind() != ErrorKind::NotFound => {
            return eprintln!(rt; "house: {path}: {why}");
        }
        _ => eprintln!(rt; "house: {path}: {why}")?,
    }
    eprintln!(rt; "house: make a new device with: head -c 229376 /dev/zero > {path}")
}

// Why a lease can't be saved is told behind it.
fn tell_halt(rt: &HostRuntime, halt: Halt, failure: Option<io::Error>) -> io::Result<()> {
    match (halt, failure) {
        (Halt::Stopped(Stop::NotSaved), Some(e)) => eprintln!(rt; "house: {halt}: {e}"),
        _ => eprintln!(rt; "house: {halt}"),
    }
}

fn lend(rt: &HostRuntime, path: &str) -> io::Result<ExitCode> {
    let (file, journal) = match open(rt, path) {
        Ok(opened) => opened,
        Err(why) => {
            tell_unusable(rt, path, why)?;
            return Ok(ExitCode::FAILURE);
        }
    };
    let heap = rt.alloc();
    let outside = FileOutside::new(file, Outbox::new(heap, rt.stdout()));
    let mut shell = Shell::new(heap, Server::new(heap, journal), outside);
    if let Err(halt) = serve(rt, &mut shell) {
        tell_halt(rt, halt, shell.outside.failure)?;
        return Ok(ExitCode::FAILURE);
    }
    Ok(ExitCode::SUCCESS)
}

fn obey(rt: &HostRuntime) -> io::Result<ExitCode> {
    let mut args = env::args(rt)?.skip(1);
    let (Some(word), None) = (args.next(), args.next()) else {
        eprintln!(rt; "{USAGE}")?;
        return Ok(ExitCode::FAILURE);
    };
    if word.as_str() == "--help" {
        println!(rt; "{USAGE}")?;
        return Ok(ExitCode::SUCCESS);
    }
    lend(rt, word.as_str())
}

fn main(rt: HostRuntime) -> ExitCode {
    obey(&rt).unwrap_or(ExitCode::FAILURE)
}

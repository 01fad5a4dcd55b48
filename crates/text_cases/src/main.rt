#![tactic(auto)]

// Reads and writes a table of cases: what each text says in bytes and which text these have again, what each bytes say, and why one is refused.
mod case;

use anyhow::Result;
use case::Case;
use std::fs;
use text::{Form, Report, read_text, write_text};

// More bytes than these are only counted.
const SHOWN: usize = 64;

fn show_bytes(rt: &HostRuntime, bytes: &[u8]) -> Result<()> {
    let count = bytes.len();
    if count > SHOWN {
        println!(rt; "  {count} bytes")?;
        return Ok(());
    }
    print!(rt; " ")?;
    for byte in bytes {
        print!(rt; " {byte:02x}")?;
    }
    println!(rt; "")?;
    Ok(())
}

fn show_text(rt: &HostRuntime, text: &[u8]) -> Result<()> {
    print!(rt; "  ")?;
    for byte in text {
        let shown = if *byte == b'\n' {
            '|'
        } else {
            char::from(*byte)
        };
        print!(rt; "{shown}")?;
    }
    println!(rt; "")?;
    Ok(())
}

fn to_text(rt: &HostRuntime, form: Form, bytes: &[u8]) -> Result<()> {
    match write_text(rt.alloc(), form, bytes) {
        Ok(text) => show_text(rt, text.as_slice()),
        Err(fault) => {
            println!(rt; "  {fault}")?;
            Ok(())
        }
    }
}

fn to_bytes(rt: &HostRuntime, form: Form, text: &[u8]) -> Result<()> {
    match read_text(rt.alloc(), form, text) {
        Ok(bytes) => {
            show_bytes(rt, bytes.as_slice())?;
            to_text(rt, form, bytes.as_slice())
        }
        Err(fault) => {
            let report = Report { text, fault };
            println!(rt; "  {report}")?;
            Ok(())
        }
    }
}

fn play(rt: &HostRuntime, line: &str) -> Result<()> {
    println!(rt; "{line}")?;
    match Case::of(rt.alloc(), line)? {
        Case::Text(form, text) => to_bytes(rt, form, text.as_slice()),
        Case::Bytes(form, bytes) => to_text(rt, form, bytes.as_slice()),
    }
}

fn run(rt: &HostRuntime) -> Result<()> {
    let cases = fs::read_to_string(rt, "cases.txt")?;
    for line in cases.as_str().lines().filter(|line| !line.is_empty()) {
        play(rt, line)?;
    }
    Ok(())
}

fn main(rt: HostRuntime) -> Result<()> {
    run(&rt)
}

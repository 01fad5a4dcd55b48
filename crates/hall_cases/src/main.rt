#![tactic(auto)]

// Plays every script that list.txt names, and prints what the program hall does with each.
use anyhow::anyhow;
use printing::{Printer, is_two};
use replay::{Stopped, play};
use std::fs;
use std::io::Write;
use system::Line;
use text::{Form, Report, read_text};

// A script of text ends so; any other is bytes.
const TEXT: &str = ".txt";

fn bytes_of(rt: &HostRuntime, name: &str) -> anyhow::Result<Vec<u8>> {
    let file = fs::read(rt, name)?;
    if !name.ends_with(TEXT) {
        return Ok(file);
    }
    match read_text(rt.alloc(), Form::Script, &file) {
        Ok(script) => Ok(script),
        Err(fault) => {
            let report = Report { text: &file, fault };
            println!(rt; "{name}: {report}")?;
            Err(anyhow!("a script is no text of one"))
        }
    }
}

fn show_report(rt: &HostRuntime, name: &str, report: &[Line]) -> anyhow::Result<()> {
    let mut printer = Printer::new(rt.alloc());
    for line in report {
        printer.put(*line)?;
    }
    let status = u8::from(report.iter().any(|line| is_two(*line)));
    println!(rt; "== {name}, status {status}")?;
    rt.stdout().write_all(printer.text()?.as_bytes())?;
    Ok(())
}

fn play_case(rt: &HostRuntime, name: &str) -> anyhow::Result<()> {
    let script = bytes_of(rt, name)?;
    let mut report = Vec::new(rt.alloc());
    match play(rt.alloc(), &script, &mut report) {
        Ok(()) => show_report(rt, name, &report),
        Err(Stopped::NoMemory) => Err(Stopped::NoMemory.into()),
        Err(stopped) => {
            println!(rt; "== {name}, status 1")?;
            println!(rt; "{stopped}")?;
            Ok(())
        }
    }
}

fn run(rt: &HostRuntime) -> anyhow::Result<()> {
    let list = fs::read_to_string(rt, "list.txt")?;
    for name in list.as_str().lines().filter(|name| !name.is_empty()) {
        play_case(rt, name)?;
    }
    Ok(())
}

fn main(rt: HostRuntime) -> anyhow::Result<()> {
    run(&rt)
}

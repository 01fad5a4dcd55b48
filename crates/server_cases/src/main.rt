#![tactic(auto)]

// Plays scripts to servers with devices in memory, zeros at first, and prints what each message makes them do.
mod shown;
mod stage;

use anyhow::{Context, bail};
use shown::Shown;
use stage::Stage;
use std::alloc::{AllocError, Global};
use std::fs;

// Two lower digits to a byte, wherever spaces stand. The crate hex takes upper digits too, and says otherwise what is wrong.
fn bytes_of(heap: Global, text: &str) -> anyhow::Result<Vec<u8>> {
    let digits: String = text.split(' ').collect(heap)?;
    if !digits
        .bytes()
        .all(|byte| matches!(byte, b'0'..=b'9' | b'a'..=b'f'))
    {
        bail!("no hexadecimal digit");
    }
    if digits.len() % 2 == 1 {
        bail!("half a byte");
    }
    // only memory can be wanting now
    let bytes = hex::decode(heap, digits).map_err(|_| AllocError)?;
    Ok(bytes)
}

// A message comes so many times; what the last does is printed.
fn hear(rt: &HostRuntime, stage: &mut Stage, times: u32, text: &str) -> anyhow::Result<()> {
    let bytes = bytes_of(rt.alloc(), text)?;
    for _ in 0..times {
        stage.hear(&bytes)?;
    }
    for effect in stage.effects() {
        let shown = Shown(*effect);
        print!(rt; " {shown}")?;
    }
    Ok(())
}

fn play(rt: &HostRuntime, stage: &mut Stage, line: &str) -> anyhow::Result<()> {
    let (word, rest) = line.split_once(' ').unwrap_or((line, ""));
    match word {
        "hear" => hear(rt, stage, 1, rest),
        "repeat" => {
            let (times, text) = rest.split_once(' ').context("how often, and what")?;
            hear(rt, stage, times.parse()?, text)
        }
        "damage" => stage.damage(rest.parse()?),
        "reopen" => stage.reopen(rt.alloc()),
        _ => bail!("no such command"),
    }
}

fn run(rt: &HostRuntime) -> anyhow::Result<()> {
    let text = fs::read_to_string(rt, "scripts.txt")?;
    let mut stage = Stage::new(rt.alloc())?;
    for line in text.lines().filter(|line| !line.is_empty()) {
        print!(rt; "{line}")?;
        if line.starts_with('#') {
            stage = Stage::new(rt.alloc())?;
        } else {
            print!(rt; ":")?;
            play(rt, &mut stage, line)?;
        }
        println!(rt; "")?;
    }
    Ok(())
}

fn main(rt: HostRuntime) -> anyhow::Result<()> {
    run(&rt)
}

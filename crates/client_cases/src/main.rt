#![tactic(auto)]

// Plays scripts of messages to a client, and prints what it puts out. A script has one message a line, in hexadecimal digits; `* 60` behind it has it heard 60 times.
mod line;

use client::Client;
use line::Line;
use std::fs;
use wire::Message;

const SCRIPTS: [&str; 10] = [
    "asking.txt",
    "backoff.txt",
    "renewal.txt",
    "due.txt",
    "expiry.txt",
    "faults.txt",
    "power.txt",
    "down.txt",
    "nonces.txt",
    "clock.txt",
];

// A message's bytes, without their length before them.
fn print_message(rt: &HostRuntime, message: Message) -> anyhow::Result<()> {
    let mut framed = Vec::new(rt.alloc());
    message.encode(&mut framed)?;
    let text = hex::encode(rt.alloc(), framed.get(1..).unwrap_or(&[]))?;
    print!(rt; " {text}")?;
    Ok(())
}

// One message is heard for the `turn`th time.
fn hear(rt: &HostRuntime, client: &mut Client, bytes: &[u8], turn: u32) -> anyhow::Result<()> {
    let mut out = Vec::new(rt.alloc());
    client.hear(bytes, &mut out)?;
    if out.is_empty() {
        return Ok(());
    }
    print!(rt; " [{turn}]")?;
    for message in out {
        print_message(rt, message)?;
    }
    Ok(())
}

fn play(rt: &HostRuntime, name: &str) -> anyhow::Result<()> {
    println!(rt; "{name}")?;
    let text = fs::read_to_string(rt, name)?;
    let mut client = Client::new(rt.alloc());
    let messages = text
        .lines()
        .filter(|text| !text.is_empty() && !text.starts_with('#'));
    for text in messages {
        let line = Line::of(rt.alloc(), text)?;
        print!(rt; "{text}:")?;
        for turn in 1..=line.times {
            hear(rt, &mut client, &line.bytes, turn)?;
        }
        println!(rt; "")?;
    }
    Ok(())
}

fn main(rt: HostRuntime) -> anyhow::Result<()> {
    for name in SCRIPTS {
        play(&rt, name)?;
    }
    Ok(())
}

#![tactic(auto)]

// Plays a table of byte strings: what each says to its reader, good and bad, one line each.
mod answer;
mod case;

use answer::Answer;
use case::{Case, Form};
use std::fs;
use wire::{Message, Next, Reader, next_message};

// What one message says; if it is taken, also the bytes that it is written as again.
fn hear(rt: &HostRuntime, case: &Case, reader: Reader, bytes: &[u8]) -> anyhow::Result<()> {
    let answer = Message::decode(reader, case.settings, bytes);
    print!(rt; " {}", Answer(answer))?;
    if let Ok(message) = answer {
        let mut out = Vec::new(rt.alloc());
        message.encode(&mut out)?;
        print!(rt; " =")?;
        for byte in &out {
            print!(rt; " {byte:02x}")?;
        }
    }
    Ok(())
}

fn play(rt: &HostRuntime, line: &str) -> anyhow::Result<()> {
    let case = Case::of(rt.alloc(), line)?;
    print!(rt; "{line}:")?;
    match case.form {
        Form::Message(reader) => {
            hear(rt, &case, reader, &case.bytes)?;
            println!(rt; "")?;
        }
        Form::Stream => {
            let mut stream = case.bytes.as_slice();
            while let Next::Message { bytes, rest } = next_message(stream) {
                hear(rt, &case, Reader::Server, bytes)?;
                print!(rt; ";")?;
                stream = rest;
            }
            println!(rt; " {}", if stream.is_empty() { "end" } else { "cut" })?;
        }
    }
    Ok(())
}

fn run(rt: &HostRuntime) -> anyhow::Result<()> {
    let text = fs::read_to_string(rt, "cases.txt")?;
    for line in text.lines() {
        if !line.is_empty() && !line.starts_with('#') {
            play(rt, line)?;
        }
    }
    Ok(())
}

fn main(rt: HostRuntime) -> anyhow::Result<()> {
    run(&rt)
}

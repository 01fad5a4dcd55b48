#![tactic(auto)]

// Scripts and streams between bytes and text: standard input to standard output.
mod mode;

use anyhow::{Result, anyhow};
use mode::{Mode, UnknownMode};
use std::env;
use std::io::{Read, Write};
use text::{Form, Report, read_text, write_text};

const USAGE: &str = "usage: words MODE < INPUT > OUTPUT

  script       lines to a script's bytes
  stream       lines without house and box to a stream's bytes
  read-script  a script's bytes to lines
  read-stream  a stream's bytes to lines

examples:
  printf 'house settings 4 100 5\\nhouse tick 12\\nbox 3 bytes 02ff\\n' | words script > run.script
  printf 'settings 4 100 5\\nrequest 17 99 4\\n' | words stream | house DEVICE | words read-stream
  words read-script < run.script
  words read-stream < answers.stream

lines, with # before a comment; box N in place of house, and neither in a stream:
  house settings ADDRESSES TERM SKEW      house request CLIENT NONCE PREFERRED
  house number CLIENT                     house grant CLIENT NONCE ADDRESS
  house nonce NONCE                       house in-use ADDRESS UNTIL
  house tick [TIMES]                      house none
  house crash                             house fault NUMBER
  house restart CLOCK                     house bytes [HEXADECIMAL]
";

// The whole of standard input.
fn input(rt: &HostRuntime) -> Result<Vec<u8>> {
    let mut bytes = Vec::new(rt.alloc());
    rt.stdin().read_to_end(&mut bytes)?;
    Ok(bytes)
}

fn output(rt: &HostRuntime, bytes: &[u8]) -> Result<()> {
    let mut out = rt.stdout();
    out.write_all(bytes)?;
    out.flush()?;
    Ok(())
}

fn to_bytes(rt: &HostRuntime, form: Form, input: &[u8]) -> Result<()> {
    match read_text(rt.alloc(), form, input) {
        Ok(bytes) => output(rt, bytes.as_slice()),
        Err(fault) => {
            let report = Report { text: input, fault };
            eprintln!(rt; "{report}")?;
            Err(anyhow!("the text is refused"))
        }
    }
}

fn to_text(rt: &HostRuntime, form: Form, input: &[u8]) -> Result<()> {
    match write_text(rt.alloc(), form, input) {
        Ok(text) => output(rt, text.as_slice()),
        Err(fault) => {
            eprintln!(rt; "{fault}")?;
            Err(anyhow!("the bytes are refused"))
        }
    }
}

fn main(rt: HostRuntime) -> Result<()> {
    let Some(word) = env::args(&rt)?.nth(1) else {
        eprint!(rt; "{USAGE}")?;
        return Err(anyhow!("no mode"));
    };
    if word.as_str() == "--help" {
        print!(rt; "{USAGE}")?;
        return Ok(());
    }
    let Ok(mode) = word.as_str().parse::<Mode>() else {
        eprint!(rt; "{USAGE}")?;
        return Err(UnknownMode.into());
    };
    let bytes = input(&rt)?;
    match mode {
        Mode::ToBytes(form) => to_bytes(&rt, form, bytes.as_slice()),
        Mode::ToText(form) => to_text(&rt, form, bytes.as_slice()),
    }
}

ghost use Rattle.std.specs.Prelude.{◌≡◌, [], ◌∷◌, ◌++◌, decimal, OnOk};
ghost use Rattle.text.specs.Told.{body_words, lead_text, line_text, raw_words, said_words, spaced, tick_words, trailed};

use crate::decimal::write_decimal;
use crate::form::{Addressee, Form};
use crate::hex::write_hex;
use crate::sentence::{Sentence, Spoken};
use std::alloc::AllocError;

// A number and the space before it.
fn write_figure(n: u64, out: &mut Vec<u8>) -> Result<(), AllocError>
    ensures { OnOk result (out.new.items ≡ out.old.items ++ trailed (decimal n ∷ [])) }
{
    out.push(b' ')?;
    write_decimal(n, out)
}

fn write_said(sentence: Sentence, out: &mut Vec<u8>) -> Result<(), AllocError>
    ensures { OnOk result (out.new.items ≡ out.old.items ++ spaced (said_words sentence)) }
{
    let Sentence { kind, figures } = sentence;
    let figures = &figures[..kind.fields().len()];
    out.extend_from_slice(kind.name())?;
    for figure in figures {
        write_figure(*figure, out)?;
    }
    Ok(())
}

fn write_ticks(times: u64, out: &mut Vec<u8>) -> Result<(), AllocError>
    ensures { OnOk result (out.new.items ≡ out.old.items ++ spaced (tick_words times)) }
{
    out.extend_from_slice(b"tick")?;
    if times == 1 {
        return Ok(());
    }
    write_figure(times, out)
}

fn write_raw(message: &[u8], out: &mut Vec<u8>) -> Result<(), AllocError>
    ensures { OnOk result (out.new.items ≡ out.old.items ++ spaced (raw_words message.now)) }
{
    out.extend_from_slice(b"bytes")?;
    if message.is_empty() {
        return Ok(());
    }
    out.push(b' ')?;
    write_hex(message, out)
}

fn write_body(spoken: Spoken, message: &[u8], out: &mut Vec<u8>) -> Result<(), AllocError>
    ensures { OnOk result (out.new.items ≡ out.old.items ++ spaced (body_words spoken message.now)) }
{
    match spoken {
        Spoken::Tick => write_ticks(1, out),
        Spoken::Raw => write_raw(message, out),
        Spoken::Say(sentence) => write_said(sentence, out),
    }
}

impl Addressee {
    fn write_lead(self, out: &mut Vec<u8>) -> Result<(), AllocError>
        ensures { OnOk result (out.new.items ≡ out.old.items ++ lead_text self.form self.who) }
    {
        match (self.form, self.who) {
            (Form::Stream, _) => Ok(()),
            (Form::Script, 0) => out.extend_from_slice(b"house "),
            (Form::Script, who) => {
                out.extend_from_slice(b"box ")?;
                write_decimal(u64::from(who), out)?;
                out.push(b' ')?;
                Ok(())
            }
        }
    }

    // The line of one entry.
    pub fn write_entry(
        self,
        spoken: Spoken,
        message: &[u8],
        out: &mut Vec<u8>,
    ) -> Result<(), AllocError>
        ensures { OnOk result (out.new.items ≡ out.old.items ++ line_text self.form self.who (body_words spoken message.now)) }
    {
        self.write_lead(out)?;
        write_body(spoken, message, out)?;
        out.push(b'\n')?;
        Ok(())
    }

    // The line of so many ticks.
    pub fn write_tick_line(self, times: u64, out: &mut Vec<u8>) -> Result<(), AllocError>
        ensures { OnOk result (out.new.items ≡ out.old.items ++ line_text self.form self.who (tick_words times)) }
    {
        self.write_lead(out)?;
        write_ticks(times, out)?;
        out.push(b'\n')?;
        Ok(())
    }
}

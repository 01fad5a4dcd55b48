ghost use Rattle.std.specs.Prelude.{◌≡◌, ◌≤◌, ◌∷◌, ◌++◌, IfOk, OnOk};
ghost use Rattle.text.specs.Line.{begins, lead_of, line_of, speech_bytes};
ghost use Rattle.text.specs.Entry.{copies, entry_bytes, head};
ghost use Rattle.text.specs.Hex.{meant};
ghost use Rattle.text.specs.Pieces.{words};
ghost use Rattle.wire.specs.Message.{encoded};
ghost use Rattle.wire.specs.declared.message.Message.TheVariants.{Tick};

use crate::fault::{Expected, Mistake};
use crate::field::Field;
use crate::form::{Addressee, Form};
use crate::hex::read_hex;
use crate::kind::Verb;
use crate::piece::{is_blank, word_at};
use crate::speech::{Rest, Speech, figure};
use std::alloc::AllocError;
use wire::Message;

const HOUSE: &[u8] = b"house";

const BOX: &[u8] = b"box";

// Who a line is for, and the place of its verb.
#[derive(Clone, Copy, Debug, PartialEq, Eq)]
pub struct Lead {
    who: u8,
    verb: usize,
}

// What a line says, and for whom its entries are.
#[derive(Clone, Copy)]
pub struct Line {
    pub party: Addressee,
    pub speech: Speech,
}

// 0 in a stream: an Option would be Some in every script and None in every stream, which the form says already.
fn read_lead(form: Form, line: &[u8]) -> Result<Lead, Mistake>
    ensures value { result ≡ lead_of form (words line.now) }
    ensures place { IfOk result (λ l. l.verb ≤ 2) }
{
    match form {
        Form::Stream => Ok(Lead { who: 0, verb: 0 }),
        Form::Script => {
            match word_at(line, 0) {
                Some(word) if word == HOUSE => Ok(Lead { who: 0, verb: 1 }),
                Some(word) if word == BOX => figure(line, Field::Party, 1).map(|who| Lead {
                    who: who as u8,
                    verb: 2,
                }),
                _ => Err(Mistake {
                    expected: Expected::Party,
                    place: 0,
                }),
            }
        }
    }
}

fn read_entry(form: Form, line: &[u8]) -> Result<Line, Mistake>
    ensures { result ≡ begins form (words line.now) }
{
    let lead = read_lead(form, line)?;
    let verb = word_at(line, lead.verb)
        .and_then(Verb::named)
        .ok_or(Mistake {
            expected: Expected::Verb,
            place: lead.verb,
        })?;
    let place = lead.verb + 1;
    let speech = Rest { line, place }.behind(verb)?;
    let party = Addressee {
        form,
        who: lead.who,
    };
    Ok(Line { party, speech })
}

// What a line says; a blank one says nothing.
pub fn read_line(form: Form, line: &[u8]) -> Result<Option<Line>, Mistake>
    ensures { result ≡ line_of form (words line.now) }
{
    // most blank lines are seen to be blank without looking for words
    if is_blank(line) || word_at(line, 0).is_none() {
        return Ok(None);
    }
    read_entry(form, line).map(Some)
}

impl Addressee {
    fn append_head(self, out: &mut Vec<u8>) -> Result<(), AllocError>
        ensures { OnOk result (out.new.items ≡ out.old.items ++ head self.form self.who) }
    {
        if self.form == Form::Script {
            out.push(self.who)?;
        }
        Ok(())
    }

    fn append_message(self, message: Message, out: &mut Vec<u8>) -> Result<(), AllocError>
        ensures { OnOk result (out.new.items ≡ out.old.items ++ entry_bytes self.form self.who (encoded message)) }
    {
        self.append_head(out)?;
        message.encode(out)
    }

    fn append_ticks(self, times: u64, out: &mut Vec<u8>) -> Result<(), AllocError>
        ensures { OnOk result (out.new.items ≡ out.old.items ++ copies times (entry_bytes self.form self.who (encoded Tick))) }
    {
        for _ in 0..times {
            self.append_message(Message::Tick, out)?;
        }
        Ok(())
    }

    fn append_raw(self, size: u8, digits: &[u8], out: &mut Vec<u8>) -> Result<(), AllocError>
        ensures { OnOk result (out.new.items ≡ out.old.items ++ (head self.form self.who ++ size ∷ meant digits.now)) }
    {
        self.append_head(out)?;
        out.push(size)?;
        read_hex(digits, out)
    }
}

// Appends the bytes of the entries that a line says.
pub fn append_line(said: Line, line: &[u8], out: &mut Vec<u8>) -> Result<(), AllocError>
    ensures { OnOk result (out.new.items ≡ out.old.items ++ speech_bytes said.party.form said.party.who (words line.now) said.speech) }
{
    let Line { party, speech } = said;
    match speech {
        Speech::Say(message) => party.append_message(message, out),
        Speech::Ticks(times) => party.append_ticks(times, out),
        Speech::Raw { place, size } => {
            party.append_raw(size, word_at(line, place).unwrap_or(&[]), out)
        }
    }
}

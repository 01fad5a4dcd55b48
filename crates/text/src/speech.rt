ghost use Rattle.std.specs.Prelude.{◌≡◌, ◌≤◌, cond, IfOk};
ghost use Rattle.text.specs.Kind.{fields as kind-fields};
ghost use Rattle.text.specs.Field.{range};
ghost use Rattle.text.specs.Pieces.{words};
ghost use Rattle.text.specs.Sentence.{Fitting};
ghost use Rattle.text.specs.Speech.{absent, figure_at, figures_at, mistake as mistaken, raw_at, said_at, speech_of, ticks_at};

use crate::decimal::read_decimal;
use crate::fault::{Expected, Mistake};
use crate::field::Field;
use crate::hex::is_hex;
use crate::kind::{Kind, Verb};
use crate::piece::word_at;
use crate::sentence::message;
use wire::Message;

// What a line says of its party, without who that is.
#[derive(Clone, Copy)]
pub enum Speech {
    Say(Message),
    // a tick so many times
    Ticks(u64),
    // the bytes that the digits at this place say, and how many they are; a place and no borrow, since
    // clauses take borrows for equal only where they lie at one place of memory, and a second enum
    // of what is said, for the clauses alone, would be no plainer
    Raw { place: usize, size: u8 },
}

// Two digits to each of 255 bytes.
const MOST_DIGITS: usize = 510;

// A line is to end before a place: any, since the numbers can go past those at which a Rest begins.
fn end(line: &[u8], place: usize) -> Result<(), Mistake>
    ensures { result ≡ cond (absent place (words line.now)) (Ok tt) (Err (mistaken Expected.Nothing place)) }
{
    if word_at(line, place).is_some() {
        let expected = Expected::Nothing;
        return Err(Mistake { expected, place });
    }
    Ok(())
}

// The number that a line has at a place, also that of its party, if it is one that the field takes.
pub fn figure(line: &[u8], field: Field, place: usize) -> Result<u64, Mistake>
    ensures value { result ≡ figure_at field place (words line.now) }
    ensures within { IfOk result (λ n. n ≤ (range field).most) }
{
    let expected = Expected::Number(field);
    word_at(line, place)
        .and_then(|word| read_decimal(word, field.most()))
        .filter(|n| field.least() <= *n)
        .ok_or(Mistake { expected, place })
}

// A line from a place on, where what stands behind its verb begins.
#[derive(Clone, Copy)]
pub struct Rest<'a> {
    pub line: &'a [u8],
    pub place: usize,
    // a party has two words at most, and then there is the verb
    pub ghost near: { place ≤ 3 },
}

impl Rest<'_> {
    // The numbers that a message of this kind has; the others are 0.
    fn figures(&self, kind: Kind) -> Result<[u64; 3], Mistake>
        ensures value { result ≡ figures_at kind self.now.place (words self.now.line.now) }
        ensures within { IfOk result (λ f. Fitting (kind-fields kind) f) }
    {
        let fields = kind.fields();
        let mut figures = [0; 3];
        for (i, field) in fields.iter().enumerate() {
            figures[i] = figure(self.line, *field, self.place + i)?;
        }
        Ok(figures)
    }

    fn said(&self, kind: Kind) -> Result<Speech, Mistake>
        ensures { result ≡ said_at kind self.now.place (words self.now.line.now) }
    {
        let figures = self.figures(kind)?;
        end(self.line, self.place + kind.fields().len())?;
        message(kind, figures).map(Speech::Say).ok_or(Mistake {
            expected: Expected::Number(Field::Fault),
            place: self.place,
        })
    }

    fn ticks(&self) -> Result<Speech, Mistake>
        ensures { result ≡ ticks_at self.now.place (words self.now.line.now) }
    {
        if word_at(self.line, self.place).is_none() {
            return Ok(Speech::Ticks(1));
        }
        let times = figure(self.line, Field::Times, self.place)?;
        end(self.line, self.place + 1)?;
        Ok(Speech::Ticks(times))
    }

    fn raw(&self) -> Result<Speech, Mistake>
        ensures { result ≡ raw_at self.now.place (words self.now.line.now) }
    {
        let place = self.place;
        let word = word_at(self.line, place).unwrap_or(&[]);
        if word.len() > MOST_DIGITS {
            let expected = Expected::FewerBytes;
            return Err(Mistake { expected, place });
        }
        if !is_hex(word) {
            let expected = Expected::Bytes;
            return Err(Mistake { expected, place });
        }
        end(self.line, place + 1)?;
        let size = (word.len() / 2) as u8;
        Ok(Speech::Raw { place, size })
    }

    // What the words say, by the verb before them.
    pub fn behind(&self, verb: Verb) -> Result<Speech, Mistake>
        ensures { result ≡ speech_of verb self.now.place (words self.now.line.now) }
    {
        match verb {
            Verb::Tick => self.ticks(),
            Verb::Bytes => self.raw(),
            Verb::Say(kind) => self.said(kind),
        }
    }
}

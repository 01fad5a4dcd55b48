ghost use Rattle.std.specs.Prelude.{◌≡◌, ◌-◌, [], slice_index_or, Some};
ghost use Rattle.text.specs.Pieces.{lines, words};
ghost use Rattle.text.specs.Words.{field_words};

use crate::fault::{Breach, Expected, ReadFault, WriteFault};
use crate::field::Field;
use crate::piece::word_at;
use crate::reading::NEWLINE;
use std::fmt;

// So much of a word is shown.
const SHOWN: usize = 40;

impl fmt::Display for Field {
    ghost output = { λ field. Some (field_words field) };

    fn fmt<W: fmt::Write>(&self, f: &mut fmt::Formatter<W>) -> fmt::Result {
        f.write_str(match self {
            Field::Addresses => "the addresses",
            Field::Term => "the term",
            Field::Skew => "the skew",
            Field::Client => "the client",
            Field::Nonce => "the nonce",
            Field::Preferred => "the preferred address",
            Field::Address => "the address",
            Field::Clock => "the clock",
            Field::Until => "the last tick of use",
            Field::Fault => "the fault",
            Field::Times => "how many ticks",
            Field::Party => "the box",
        })
    }
}

impl fmt::Display for Expected {
    fn fmt<W: fmt::Write>(&self, f: &mut fmt::Formatter<W>) -> fmt::Result {
        match self {
            Expected::Party => write!(f, "house or box"),
            Expected::Verb => write!(
                f,
                "settings, number, nonce, request, grant, tick, crash, restart, in-use, none, fault or bytes"
            ),
            Expected::Number(field) => {
                let least = field.least();
                let most = field.most();
                write!(f, "a number from {least} to {most} for {field}")
            }
            Expected::Bytes => write!(f, "lower hexadecimal digits, two to a byte"),
            Expected::FewerBytes => write!(f, "at most 255 bytes"),
            Expected::Nothing => write!(f, "the end of the line"),
        }
    }
}

impl fmt::Display for Breach {
    fn fmt<W: fmt::Write>(&self, f: &mut fmt::Formatter<W>) -> fmt::Result {
        match self {
            Breach::Short => write!(f, "the entry ends too early"),
            Breach::Party(who) => {
                let most = Field::Party.most();
                write!(f, "who is {who}, at most {most}")
            }
        }
    }
}

impl fmt::Display for WriteFault {
    fn fmt<W: fmt::Write>(&self, f: &mut fmt::Formatter<W>) -> fmt::Result {
        match self {
            WriteFault::Entry { at, breach } => write!(f, "byte {at}: {breach}"),
            WriteFault::Memory => write!(f, "no memory"),
        }
    }
}

// A word as it stands in a text.
#[derive(Clone, Copy)]
struct Word<'a>(&'a [u8]);

impl fmt::Display for Word<'_> {
    fn fmt<W: fmt::Write>(&self, f: &mut fmt::Formatter<W>) -> fmt::Result {
        if self.0.is_empty() {
            return write!(f, "the end of the line");
        }
        write!(f, "\"")?;
        for byte in self.0.iter().take(SHOWN) {
            if byte.is_ascii_graphic() {
                let shown = char::from(*byte);
                write!(f, "{shown}")?;
            } else {
                write!(f, "\\x{byte:02x}")?;
            }
        }
        if self.0.len() > SHOWN {
            write!(f, "..")?;
        }
        write!(f, "\"")
    }
}

// The word at a place of a line; lines are counted from 1.
pub fn word_of(text: &[u8], line: usize, place: usize) -> &[u8]
    ensures { result.now ≡ slice_index_or (words (slice_index_or (lines text.now) (line - 1) [])) place [] }
{
    let mut lines = text.split(|byte| *byte == NEWLINE);
    let line = lines.nth(line.saturating_sub(1)).unwrap_or(&[]);
    word_at(line, place).unwrap_or(&[])
}

// Why a text is refused, with the word that is not what it should be.
#[derive(Clone, Copy, Debug)]
pub struct Report<'a> {
    pub text: &'a [u8],
    pub fault: ReadFault,
}

impl fmt::Display for Report<'_> {
    fn fmt<W: fmt::Write>(&self, f: &mut fmt::Formatter<W>) -> fmt::Result {
        match self.fault {
            ReadFault::Line { line, mistake } => {
                let expected = mistake.expected;
                let word = Word(word_of(self.text, line, mistake.place));
                write!(f, "line {line}: expected {expected}, found {word}")
            }
            ReadFault::Memory => write!(f, "no memory"),
        }
    }
}

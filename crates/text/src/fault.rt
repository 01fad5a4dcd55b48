ghost use Rattle.std.specs.Prelude.{◌≡◌};
ghost use Rattle.text.specs.declared.fault.ReadFault.TheVariants as read;
ghost use Rattle.text.specs.declared.fault.WriteFault.TheVariants as write;

use crate::field::Field;
use std::alloc::AllocError;
use std::error::Error;

// What a line should have had at a place.
#[derive(Clone, Copy, Debug, PartialEq, Eq)]
pub enum Expected {
    // the server or a client
    Party,
    // a word that says what the entry is
    Verb,
    Number(Field),
    // bytes in lower hexadecimal digits, two to a byte
    Bytes,
    // not more bytes than a message can have
    FewerBytes,
    // the end of the line
    Nothing,
}

// What stands in a line at a place, counted from 0, is not what it should be.
#[derive(Clone, Copy, Debug, PartialEq, Eq)]
pub struct Mistake {
    pub expected: Expected,
    pub place: usize,
}

// Why a text is refused; lines are counted from 1.
#[derive(Clone, Copy, Debug, PartialEq, Eq)]
pub enum ReadFault {
    Line { line: usize, mistake: Mistake },
    Memory,
}

impl From<AllocError> for ReadFault {
    ghost from_gives = { λ _ fault. fault ≡ read.Memory };

    fn from(_error: AllocError) -> ReadFault {
        ReadFault::Memory
    }
}

// What is wrong with an entry.
#[derive(Clone, Copy, Debug, PartialEq, Eq)]
pub enum Breach {
    // the bytes end within it
    Short,
    // nobody has this number
    Party(u8),
}

// Why bytes are refused; `at` is where the bad entry begins, counted from 0.
#[derive(Clone, Copy, Debug, PartialEq, Eq)]
pub enum WriteFault {
    Entry { at: usize, breach: Breach },
    Memory,
}

impl Error for WriteFault {}

impl From<AllocError> for WriteFault {
    ghost from_gives = { λ _ fault. fault ≡ write.Memory };

    fn from(_error: AllocError) -> WriteFault {
        WriteFault::Memory
    }
}

ghost use Rattle.std.specs.Prelude.{◌≡◌, Some};
ghost use Rattle.script.specs.declared.entry.Unread.TheVariants.{NoMemory};
ghost use Rattle.script.specs.Words.{unread_words};

use std::alloc::AllocFailed;
use std::error::Error;
use std::fmt;

// The highest number of a client; 0 is the server.
pub(crate) const CLIENTS: u8 = 64;

// Who hears, and the message, as it stands in the script.
#[derive(Clone, Copy, Debug, PartialEq, Eq)]
pub struct Entry<'a> {
    pub who: u8,
    pub message: &'a [u8],
}

// Why a script has no entries.
#[derive(Clone, Copy, Debug, PartialEq, Eq)]
pub enum Unread {
    // a bad entry begins at this byte
    Fault { at: usize },
    NoMemory,
}

impl<T: Drop> From<AllocFailed<T>> for Unread {
    ghost from_gives = { λ _ u. u ≡ NoMemory };

    fn from(_: AllocFailed<T>) -> Unread {
        Unread::NoMemory
    }
}

impl fmt::Display for Unread {
    ghost output = { λ unread. Some (unread_words unread) };

    fn fmt<W: fmt::Write>(&self, f: &mut fmt::Formatter<W>) -> fmt::Result {
        match self {
            Unread::Fault { at } => write!(f, "fault 1 at byte {at}"),
            Unread::NoMemory => write!(f, "out of memory"),
        }
    }
}

impl Error for Unread {}

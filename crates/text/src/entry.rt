ghost use Rattle.std.specs.Prelude.{◌≡◌};
ghost use Rattle.text.specs.Entries.{first_entry, first_of, framed_first};

use crate::fault::Breach;
use crate::field::Field;
use crate::form::Form;
use wire::{Next, next_message};

// An entry of a script or a stream, and the bytes behind it.
// script says only where the bad entry begins; here also why, and of a stream too.
#[derive(Clone, Copy)]
pub struct Entry<'a> {
    // 0 in a stream: an Option would be Some in every script and None in every stream, which the form says already
    pub who: u8,
    pub message: &'a [u8],
    pub rest: &'a [u8],
}

fn next_framed(who: u8, bytes: &[u8]) -> Result<Entry<'_>, Breach>
    ensures { first_of result ≡ framed_first who bytes.now }
{
    match next_message(bytes) {
        Next::Message {
            bytes: message,
            rest,
        } => Ok(Entry { who, message, rest }),
        Next::End | Next::Cut => Err(Breach::Short),
    }
}

// The first entry; there is to be one.
pub fn next_entry(form: Form, bytes: &[u8]) -> Result<Entry<'_>, Breach>
    ensures { first_of result ≡ first_entry form bytes.now }
{
    match form {
        Form::Stream => next_framed(0, bytes),
        Form::Script => {
            let (who, after) = bytes.split_first().ok_or(Breach::Short)?;
            if u64::from(*who) > Field::Party.most() {
                return Err(Breach::Party(*who));
            }
            next_framed(*who, after)
        }
    }
}

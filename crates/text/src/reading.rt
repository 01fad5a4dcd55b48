ghost use Rattle.std.specs.Prelude.{◌≡◌, Ok, MatchResult};
ghost use Rattle.text.specs.Read.{Refuses, read_text};

use crate::fault::ReadFault;
use crate::form::Form;
use crate::line::{append_line, read_line};
use std::alloc::Global;

pub const NEWLINE: u8 = b'\n';

// The bytes that a text says.
pub fn read_text(heap: Global, form: Form, text: &[u8]) -> Result<Vec<u8>, ReadFault>
    ensures { MatchResult result (λ v. read_text form text.now ≡ Ok v.items) (λ e. Refuses e (read_text form text.now)) }
{
    let mut out = Vec::new(heap);
    for (i, line) in text.split(|byte| *byte == NEWLINE).enumerate() {
        let said = read_line(form, line).map_err(|mistake| ReadFault::Line {
            line: i + 1,
            mistake,
        })?;
        if let Some(said) = said {
            append_line(said, line, &mut out)?;
        }
    }
    Ok(out)
}

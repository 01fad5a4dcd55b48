ghost use Rattle.std.specs.Prelude.{◌≡◌, ◌++◌, IfOk, Ok, MatchResult, OnOk};
ghost use Rattle.text.specs.Read.{read_text};
ghost use Rattle.text.specs.Sentence.{spoken_of};
ghost use Rattle.text.specs.Write.{Refuses, joined, put_run, put_text, run_text, write_text};

use crate::entry::next_entry;
use crate::fault::WriteFault;
use crate::field::Field;
use crate::form::{Addressee, Form};
use crate::sentence::{Spoken, how_said};
use std::alloc::{AllocError, Global};

// Ticks of one party that have no line yet.
#[derive(Clone, Copy, Debug, PartialEq, Eq)]
pub struct Run {
    party: Addressee,
    times: u64,
}

impl Run {
    // With one more tick of this party, if it goes on the same line.
    fn with_tick(self, party: Addressee) -> Option<Run>
        ensures { result ≡ joined (Some self) party }
    {
        if self.party == party && self.times < Field::Times.most() {
            let times = self.times + 1;
            return Some(Run { party, times });
        }
        None
    }
}

fn write_run(run: Option<Run>, out: &mut Vec<u8>) -> Result<(), AllocError>
    ensures { OnOk result (out.new.items ≡ out.old.items ++ run_text run) }
{
    let Some(Run { party, times }) = run else {
        return Ok(());
    };
    party.write_tick_line(times, out)
}

// An entry of a party comes behind ticks that have no line; those that have none after it.
fn put(
    party: Addressee,
    run: Option<Run>,
    message: &[u8],
    out: &mut Vec<u8>,
) -> Result<Option<Run>, AllocError>
    ensures run { IfOk result (λ next. next ≡ put_run run party (spoken_of message.now)) }
    ensures text { OnOk result (out.new.items ≡ out.old.items ++ put_text run party message.now (spoken_of message.now)) }
{
    let spoken = how_said(message);
    if spoken != Spoken::Tick {
        write_run(run, out)?;
        party.write_entry(spoken, message, out)?;
        return Ok(None);
    }
    let longer = run.and_then(|run| run.with_tick(party));
    if longer.is_none() {
        write_run(run, out)?;
    }
    Ok(longer.or(Some(Run { party, times: 1 })))
}

// The text of a script's or a stream's bytes.
pub fn write_text(heap: Global, form: Form, bytes: &[u8]) -> Result<Vec<u8>, WriteFault>
    ensures text { MatchResult result (λ v. write_text form bytes.now ≡ Ok v.items) (λ e. Refuses e (write_text form bytes.now)) }
    ensures back { IfOk result (λ v. read_text form v.items ≡ Ok bytes.now) }
{
    let mut out = Vec::new(heap);
    let mut rest = bytes;
    let mut run = None;
    // where the next entry begins is known only when this one is read
    while !rest.is_empty() {
        let at = bytes.len() - rest.len();
        let entry = next_entry(form, rest).map_err(|breach| WriteFault::Entry { at, breach })?;
        let party = Addressee {
            form,
            who: entry.who,
        };
        run = put(party, run, entry.message, &mut out)?;
        rest = entry.rest;
    }
    write_run(run, &mut out)?;
    Ok(out)
}

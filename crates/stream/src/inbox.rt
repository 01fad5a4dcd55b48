ghost use Rattle.std.specs.Prelude.{◌≡◌, not, [], ◌++◌, length, MatchResult, ◌==◌};
ghost use Rattle.stream.specs.Whole.{Delivers, Fails, Feeds};

use crate::hearer::{Hearer, Stop};
use std::alloc::Global;
use wire::{Next, next_message};

// What came of a stream and is not yet a whole message.
#[derive(Drop)]
pub struct Inbox {
    pub(crate) bytes: Vec<u8>,
}

// Hands each whole message on; how many bytes stand behind the last.
fn deliver<H: Hearer>(stream: &[u8], to: &mut H) -> Result<usize, Stop>
    ensures { MatchResult result (λ n. Delivers H.Hearer.went stream.now to.old n to.new) (λ _. Fails H.Hearer.went H.Hearer.stopped stream.now to.old to.new) }
{
    let mut rest = stream;
    while let Next::Message { bytes, rest: after } = next_message(rest) {
        to.hear(bytes)?;
        rest = after;
    }
    Ok(rest.len())
}

impl Inbox {
    pub fn new(heap: Global) -> Inbox
        ensures { result.bytes.items ≡ [] }
    {
        Inbox {
            bytes: Vec::new(heap),
        }
    }

    // A chunk of the stream came: each message that is whole now is handed on, and what stands behind them is kept for the next chunk.
    pub fn feed<H: Hearer>(&mut self, chunk: &[u8], to: &mut H) -> Result<(), Stop>
        ensures { Feeds H.Hearer.went H.Hearer.stopped (self.old.bytes.items ++ chunk.now) to.old result to.new self.new.bytes.items }
    {
        self.bytes.extend_from_slice(chunk)?;
        let left = deliver(&self.bytes, to)?;
        self.bytes.drain(..self.bytes.len() - left);
        Ok(())
    }

    // Whether the stream, if it ends here, ends within a message.
    pub fn is_cut(&self) -> bool
        ensures { result ≡ not (length self.now.bytes.items == 0) }
    {
        !self.bytes.is_empty()
    }
}

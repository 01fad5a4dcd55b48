ghost use Rattle.std.specs.Prelude.{◌≡◌, [], ◌++◌, is_ok, if◌then◌else◌, IfErr, MatchResult};
ghost use Rattle.stream.specs.declared.hearer.Stop.TheVariants.{NoMemory};
ghost use Rattle.stream.specs.Said.{spoken, written, SaidInPart};

use crate::hearer::Stop;
use std::alloc::Global;
use std::io;
use std::io::{Stdout, Write};
use wire::Message;

// Messages that were put out and are not yet written. It is no `BufWriter`: after a write that failed all of them are still here, which std says of no writer.
#[derive(Drop)]
pub struct Outbox {
    bytes: Vec<u8>,
    to: Stdout,
}

impl Outbox {
    pub fn new(heap: Global, to: Stdout) -> Outbox
        ensures { result.bytes.items ≡ [] }
    {
        Outbox {
            bytes: Vec::new(heap),
            to,
        }
    }

    pub fn put(&mut self, message: Message) -> Result<(), Stop>
        ensures items { self.new.bytes.items ≡ (if is_ok result then self.old.bytes.items ++ written message else self.old.bytes.items) }
        ensures stop { IfErr result (λ e. e ≡ NoMemory) }
    {
        message.encode(&mut self.bytes)?;
        Ok(())
    }

    // Puts messages out in order; where the memory for one is wanting, none behind it.
    pub fn put_all(&mut self, messages: &[Message]) -> Result<(), Stop>
        ensures { MatchResult result (λ _. self.new.bytes.items ≡ self.old.bytes.items ++ spoken messages.now) (λ e. (e ≡ NoMemory) × SaidInPart messages.now self.old.bytes.items self.new.bytes.items) }
    {
        for message in messages {
            self.put(*message)?;
        }
        Ok(())
    }

    // Writes them; after a failure they are still here.
    pub fn flush(&mut self) -> io::Result<()>
        ensures { self.new.bytes.items ≡ (if is_ok result then [] else self.old.bytes.items) }
    {
        self.to.write_all(&self.bytes)?;
        self.bytes.clear();
        Ok(())
    }
}

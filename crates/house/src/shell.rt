ghost use Rattle.std.specs.Prelude.{◌≡◌, refl};
ghost use Rattle.house.specs.Hearing.{Hears, Ran, Stops};
ghost use Rattle.house.specs.Running.{ran_more};

use crate::file::FileOutside;
use crate::outside::Outside;
use crate::perform::perform;
use server::{Effect, Server};
use std::alloc::Global;
use std::io;
use stream::{Hearer, Speaker, Stop};
use wire::{Fault, Message};

// A server, and the outside that does what it asks for.
#[derive(Drop)]
pub struct Shell<O> {
    pub(crate) server: Server,
    pub(crate) effects: Vec<Effect>,
    pub(crate) outside: O,
}

impl<O: Outside> Shell<O> {
    pub fn new(heap: Global, server: Server, outside: O) -> Shell<O>
        ensures { (result.server ≡ server) × (result.outside ≡ outside) }
    {
        Shell {
            server,
            effects: Vec::new(heap),
            outside,
        }
    }

    // The server hears a message, and what it asks for is done in order. The trait's clause is of runs; this one names the step.
    fn hear_one(&mut self, bytes: &[u8]) -> Result<(), Stop>
        ensures { Hears O.Outside.did bytes.now self.old.server self.old.outside result self.new.server self.new.outside }
    {
        self.effects.clear();
        self.server.hear(bytes, &mut self.effects)?;
        perform(&self.effects, &self.server, &mut self.outside)
    }
}

impl<O: Outside> Hearer for Shell<O> {
    ghost went = { λ a ms b. Ran O.Outside.did a.server a.outside ms b.server b.outside };

    ghost stopped = { λ a m b. Stops O.Outside.did m a.server a.outside b.server b.outside };

    ghost stays = { λ _. refl };

    ghost goes = { λ a b c ms m r q. ran_more O.Outside.did a.server b.server c.server a.outside b.outside c.outside ms m r q };

    fn hear(&mut self, bytes: &[u8]) -> Result<(), Stop> {
        self.hear_one(bytes)
    }
}

impl Speaker for Shell<FileOutside> {
    fn tell_cut(&mut self) -> Result<(), Stop> {
        self.outside.out.put(Message::Fault(Fault::Malformed))
    }

    fn flush(&mut self) -> io::Result<()> {
        self.outside.out.flush()
    }
}

ghost use Rattle.std.specs.Prelude.{◌≡◌, refl};
ghost use Rattle.client.specs.Client.{fresh};
ghost use Rattle.client.specs.Of.{client_of};
ghost use Rattle.box_.specs.Hearing.{Hears, Ran, Stops};
ghost use Rattle.box_.specs.Running.{ran_more};

use client::Client;
use std::alloc::Global;
use std::io;
use stream::{Hearer, Outbox, Speaker, Stop};
use wire::{Fault, Message};

// A client, and what it puts out.
#[derive(Drop)]
pub struct Shell {
    client: Client,
    says: Vec<Message>,
    out: Outbox,
}

impl Shell {
    pub fn new(heap: Global, out: Outbox) -> Shell
        ensures { (client_of result.client ≡ fresh) × (result.out ≡ out) }
    {
        Shell {
            client: Client::new(heap),
            says: Vec::new(heap),
            out,
        }
    }

    // The client hears a message, and what it says is put out in order. The trait's clause is of runs; this one names the step.
    fn hear_one(&mut self, bytes: &[u8]) -> Result<(), Stop>
        ensures { Hears bytes.now (client_of self.old.client) self.old.out.bytes.items result (client_of self.new.client) self.new.out.bytes.items }
    {
        self.says.clear();
        self.client.hear(bytes, &mut self.says)?;
        self.out.put_all(&self.says)
    }
}

impl Hearer for Shell {
    ghost went = { λ a ms b. Ran ms (client_of a.client) a.out.bytes.items (client_of b.client) b.out.bytes.items };

    ghost stopped = { λ a m b. Stops m (client_of a.client) a.out.bytes.items (client_of b.client) b.out.bytes.items };

    ghost stays = { λ _. refl };

    ghost goes = { λ a b c ms m r q. ran_more (client_of a.client) (client_of b.client) (client_of c.client) a.out.bytes.items b.out.bytes.items c.out.bytes.items ms m r q };

    fn hear(&mut self, bytes: &[u8]) -> Result<(), Stop> {
        self.hear_one(bytes)
    }
}

impl Speaker for Shell {
    fn tell_cut(&mut self) -> Result<(), Stop> {
        self.out.put(Message::Fault(Fault::Malformed))
    }

    fn flush(&mut self) -> io::Result<()> {
        self.out.flush()
    }
}

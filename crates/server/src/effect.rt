ghost use Rattle.std.specs.Prelude.{◌≡◌, ◌+◌, ◌≤◌, ◌++◌, Some, Ok, vec_len, vec_capacity};
ghost use Rattle.server.specs.Reply.{effects_of};
ghost use Rattle.server.specs.declared.effect.Failure.TheVariants.{Refused, NoMemory};

use journal::Written;
use lease::{Fault, Grant};
use std::alloc::AllocError;
use wire::Message;

// What a step wants done outside, one after the other.
#[derive(Clone, Copy)]
pub enum Effect {
    // these places of the device, each durable before the next
    Persist(Written),
    Send(Message),
}

// A lease on the device, and the grant that tells it.
#[derive(Clone, Copy)]
pub struct Lent {
    pub(crate) written: Written,
    pub(crate) grant: Grant,
}

impl Lent {
    // Appends its effects, in order: a lease is durable before its grant is sent.
    pub(crate) fn put(self, out: &mut Vec<Effect>)
        requires { vec_len out.old + 2 ≤ vec_capacity out.old }
        ensures { out.new.items ≡ out.old.items ++ effects_of (Ok (Some self)) }
    {
        out.push_reserved(Effect::Persist(self.written));
        out.push_reserved(Effect::Send(Message::Grant(self.grant)));
    }
}

// Why a message lends nothing: it is refused, which is told, or there is no memory for its step.
#[derive(Clone, Copy)]
pub enum Failure {
    Refused(Fault),
    NoMemory(AllocError),
}

impl From<Fault> for Failure {
    ghost from_gives = { λ fault result. result ≡ Refused fault };

    fn from(fault: Fault) -> Failure {
        Failure::Refused(fault)
    }
}

impl From<AllocError> for Failure {
    ghost from_gives = { λ error result. result ≡ NoMemory error };

    fn from(error: AllocError) -> Failure {
        Failure::NoMemory(error)
    }
}

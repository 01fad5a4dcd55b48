ghost use Rattle.std.specs.Prelude.{◌≡◌, false};
ghost use Rattle.lease.specs.World.{knowing_nothing};
ghost use Rattle.lease.specs.Stands.{client_of, HolderStarted, HolderCrashed, HolderPassed, HolderAsked, HolderHeard};

use crate::clock::Clock;
use crate::fault::Fault;
use crate::holding::Holding;
use crate::message::{Grant, Request};

// What borrows an address: a clock, and what it has. Each step takes it and gives it back.
#[derive(Clone, Copy, PartialEq, Eq, Debug)]
pub struct Holder {
    pub(crate) clock: Clock,
    // no Option of the rest, since down it keeps its clock
    pub(crate) up: bool,
    pub(crate) holding: Holding,
}

impl Holder {
    // Off, with its clock at 0.
    pub fn off() -> Holder
        ensures { client_of result ≡ knowing_nothing 0 false }
    {
        Holder {
            clock: Clock::zero(),
            up: false,
            holding: Holding::nothing(),
        }
    }

    // Switched on, with any clock, knowing nothing.
    pub fn start(clock: Clock) -> Holder
        ensures { HolderStarted clock.ticks result }
    {
        Holder {
            clock,
            up: true,
            holding: Holding::nothing(),
        }
    }

    pub fn clock(self) -> Clock
        ensures { result ≡ self.clock }
    {
        self.clock
    }

    pub fn is_up(self) -> bool
        ensures { result ≡ self.up }
    {
        self.up
    }

    pub fn holding(self) -> Holding
        ensures { result ≡ self.holding }
    {
        self.holding
    }

    pub fn crash(self) -> Holder
        ensures { HolderCrashed self result }
    {
        Holder {
            up: false,
            holding: self.holding.crash(),
            ..self
        }
    }

    // Time passes; while it is down its clock stands.
    pub fn pass(self, ticks: u64) -> Result<Holder, Fault>
        ensures { HolderPassed result ticks self }
    {
        if !self.up {
            return Ok(self);
        }
        let clock = self.clock.after(ticks)?;
        Ok(Holder {
            clock,
            holding: self.holding.tick(clock),
            ..self
        })
    }

    // It asks with a fresh nonce, and says what it sends.
    pub fn ask(self, own: u32, nonce: u64, preferred: u16) -> (Holder, Option<Request>)
        ensures { HolderAsked own nonce preferred self result.0 result.1 }
    {
        if !self.up {
            return (self, None);
        }
        let asked = Holder {
            holding: self.holding.ask(nonce, self.clock),
            ..self
        };
        let request = Request {
            client: own,
            nonce,
            preferred,
        };
        (asked, Some(request))
    }

    // A grant comes; while it is down it hears nothing.
    pub fn hear(self, term: u32, own: u32, grant: Grant) -> Result<Holder, Fault>
        ensures { HolderHeard term own grant result self }
    {
        if !self.up {
            return Ok(self);
        }
        let holding = self.holding.take(term, self.clock, own, grant)?;
        Ok(Holder { holding, ..self })
    }
}

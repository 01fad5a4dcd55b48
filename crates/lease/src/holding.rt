ghost use Rattle.std.specs.Prelude.{◌≡◌};
ghost use Rattle.lease.specs.Holding.{nothing as holding_nothing, later as later_held, asking, taking};
ghost use Rattle.std.specs.Option.{option_map};
ghost use Rattle.lease.specs.Of.{use_of, wait_of, holding_of, map_ok};

use crate::clock::Clock;
use crate::fault::Fault;
use crate::message::Grant;

// An address in use, while the client's clock shows at most `until`.
#[derive(Clone, Copy, PartialEq, Eq, Debug)]
pub struct Use {
    pub address: u16,
    pub until: u64,
}

// A request that waits for its grant.
#[derive(Clone, Copy, PartialEq, Eq, Debug)]
pub struct Wait {
    pub nonce: u64,
    pub asked: Clock,
}

// What a client has: an address in use, and a request that waits, each or neither.
#[derive(Clone, Copy, PartialEq, Eq, Debug)]
pub struct Holding {
    pub using: Option<Use>,
    pub waiting: Option<Wait>,
}

impl Holding {
    pub fn nothing() -> Holding
        ensures { holding_of result ≡ holding_nothing }
    {
        Holding {
            using: None,
            waiting: None,
        }
    }

    // The address in use.
    pub fn in_use(self) -> Option<Use>
        ensures { option_map use_of result ≡ (holding_of self).uses }
    {
        self.using
    }

    // The request that waits.
    pub fn waiting(self) -> Option<Wait>
        ensures { option_map wait_of result ≡ (holding_of self).waits }
    {
        self.waiting
    }

    // A request is sent, in the place of one that waits.
    pub fn ask(self, nonce: u64, clock: Clock) -> Holding
        ensures { holding_of result ≡ asking nonce clock.ticks (holding_of self) }
    {
        let wait = Wait {
            nonce,
            asked: clock,
        };
        Holding {
            waiting: Some(wait),
            ..self
        }
    }

    // A grant comes to the client with the number `own`: its address is used for a term from the asking on.
    pub fn take(self, term: u32, clock: Clock, own: u32, grant: Grant) -> Result<Holding, Fault>
        ensures { map_ok holding_of result ≡ taking term clock.ticks own grant (holding_of self) }
    {
        if grant.client != own {
            return Err(Fault::OtherClient);
        }
        let asked = self.waiting.filter(|wait| wait.nonce == grant.nonce);
        let wait = asked.ok_or(Fault::NotWaiting)?;
        let until = wait.asked.ticks + u64::from(term);
        if clock.ticks > until {
            return Err(Fault::TooLate);
        }
        let using = Some(Use {
            address: grant.address,
            until,
        });
        Ok(Holding {
            using,
            ..Holding::nothing()
        })
    }

    // The clock shows `clock` now: an address whose time is over is used no more.
    pub fn tick(self, clock: Clock) -> Holding
        ensures { holding_of result ≡ later_held clock.ticks (holding_of self) }
    {
        Holding {
            using: self.using.filter(|using| clock.ticks <= using.until),
            ..self
        }
    }

    // Nothing outlives a crash.
    pub fn crash(self) -> Holding
        ensures { holding_of result ≡ holding_nothing }
    {
        Holding::nothing()
    }
}

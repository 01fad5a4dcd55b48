ghost use Rattle.std.specs.Prelude.{◌≡◌, Some};
ghost use Rattle.simulation.specs.Play.{stop_text};
ghost use Rattle.simulation.specs.declared.event.Stop.TheVariants.{NoMemory};

use lease::{Found, Grant, Request};
use std::alloc::{AllocError, AllocFailed};
use std::error::Error;
use std::fmt;

// A message on the network, which keeps every one for ever.
#[derive(Clone, Copy, PartialEq, Eq, Debug)]
pub enum Sent {
    Request(Request),
    Grant(Grant),
}

// How far a server came with a request before it crashed.
#[derive(Clone, Copy, PartialEq, Eq, Debug)]
pub enum Interrupted {
    BeforeTheLease,
    AfterTheLease,
}

// What can happen. Clients are numbered from 0; a message is named by how many were sent after it.
#[derive(Clone, Copy)]
pub enum Event<'a> {
    // time passes for all: for the server by `server` ticks, for the client c by `ticks[c]`, or by none past their end
    Pass {
        server: u64,
        ticks: &'a [u64],
    },
    Ask {
        client: u32,
        nonce: u64,
        preferred: u16,
    },
    ServerHears {
        which: usize,
    },
    ServerHearsAndCrashes {
        which: usize,
        interrupted: Interrupted,
    },
    ClientHears {
        client: u32,
        which: usize,
    },
    ClientStarts {
        client: u32,
        clock: u64,
    },
    ClientCrashes {
        client: u32,
    },
    ServerCrashes,
    ServerRestarts {
        clock: u64,
        found: Found,
    },
}

// Why a play ends before its last event.
#[derive(Clone, Copy, PartialEq, Eq, Debug)]
pub enum Stop {
    // a clock would reach 2^63
    CountExhausted,
    // there is no client of this number
    NoSuchClient,
    NoMemory,
}

impl fmt::Display for Stop {
    ghost output = { λ stop. Some (stop_text stop) };

    fn fmt<W: fmt::Write>(&self, f: &mut fmt::Formatter<W>) -> fmt::Result {
        f.write_str(match self {
            Stop::CountExhausted => "a clock would reach 2^63",
            Stop::NoSuchClient => "no such client",
            Stop::NoMemory => "out of memory",
        })
    }
}

impl Error for Stop {}

impl From<AllocError> for Stop {
    ghost from_gives = { λ _ stop. stop ≡ NoMemory };

    fn from(_: AllocError) -> Stop {
        Stop::NoMemory
    }
}

impl<T: Drop> From<AllocFailed<T>> for Stop {
    ghost from_gives = { λ _ stop. stop ≡ NoMemory };

    fn from(_: AllocFailed<T>) -> Stop {
        Stop::NoMemory
    }
}

ghost use Rattle.std.specs.Prelude.{Some};
ghost use Rattle.system.specs.Names.{party_name, premise_name};

use lease::Fault;
use std::fmt;

// Who heard or put out something.
#[derive(Clone, Copy, Debug, PartialEq, Eq)]
pub enum Party {
    Server,
    // by its place in the run, from 1 on
    Client(u8),
}

// What the promise asks of a run.
#[derive(Clone, Copy, Debug, PartialEq, Eq)]
pub enum Premise {
    // the clocks of the server and of a client that is up go on by amounts that differ by at most the skew, and the server's never goes back
    Clocks,
    // every request and grant that is brought was sent
    Message,
    // no nonce is drawn twice
    Nonce,
    // no two clients have one number
    Number,
    // all have the same settings
    Settings,
    // no clock and no sequence number comes to 2^63
    Count,
}

// What a report says, one after the other.
#[derive(Clone, Copy, Debug, PartialEq, Eq)]
pub enum Line {
    Fault(Party, Fault),
    // the first premise that is broken
    Broken(Premise),
    // the first address that two clients use, and these
    Two { address: u16, first: u8, second: u8 },
    // the server's clock went on to this; those who use an address then follow
    Tick { clock: u64 },
    User { client: u8, address: u16 },
}

impl fmt::Display for Party {
    ghost output = { λ party. Some (party_name party) };

    fn fmt<W: fmt::Write>(&self, f: &mut fmt::Formatter<W>) -> fmt::Result {
        match self {
            Party::Server => write!(f, "house"),
            Party::Client(place) => write!(f, "box {place}"),
        }
    }
}

impl fmt::Display for Premise {
    ghost output = { λ premise. Some (premise_name premise) };

    fn fmt<W: fmt::Write>(&self, f: &mut fmt::Formatter<W>) -> fmt::Result {
        f.write_str(match self {
            Premise::Clocks => "clocks",
            Premise::Message => "message",
            Premise::Nonce => "nonce",
            Premise::Number => "number",
            Premise::Settings => "settings",
            Premise::Count => "count",
        })
    }
}

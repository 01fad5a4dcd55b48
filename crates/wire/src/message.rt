ghost use Rattle.std.specs.Prelude.{◌≡◌};
ghost use Rattle.wire.specs.Laws.{Fits};
ghost use Rattle.wire.specs.Message.{kind as kinded};

use crate::kind::Kind;
use lease::{Fault, Grant, Request};

// What goes over a wire to a server or a client, and what they put out.
#[derive(Clone, Copy)]
pub enum Message {
    Request(Request),
    Grant(Grant),
    Settings {
        addresses: u16,
        term: u32,
        skew: u16,
    },
    Tick,
    Crash,
    // any clock: whether one can be set to it is the receiver's to say
    Restart {
        clock: u64,
    },
    OwnNumber {
        client: u32,
    },
    Nonce {
        nonce: u64,
    },
    // a client uses the address while its clock shows at most `until`
    InUse {
        address: u16,
        until: u64,
    },
    // a client uses no address any more
    NoAddress,
    Fault(Fault),
}

impl Message {
    // What it is about; its fields fit their widths, as their types say.
    pub(crate) fn kind(self) -> Kind
        ensures kind { result ≡ kinded self }
        ensures widths { Fits self }
    {
        match self {
            Message::Request(_) => Kind::Request,
            Message::Grant(_) => Kind::Grant,
            Message::Settings { .. } => Kind::Settings,
            Message::Tick => Kind::Tick,
            Message::Crash => Kind::Crash,
            Message::Restart { .. } => Kind::Restart,
            Message::OwnNumber { .. } => Kind::OwnNumber,
            Message::Nonce { .. } => Kind::Nonce,
            Message::InUse { .. } => Kind::InUse,
            Message::NoAddress => Kind::NoAddress,
            Message::Fault(_) => Kind::Fault,
        }
    }
}

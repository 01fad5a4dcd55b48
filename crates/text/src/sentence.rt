ghost use Rattle.std.specs.Prelude.{◌≡◌};
ghost use Rattle.text.specs.Kind.{fields as kind-fields};
ghost use Rattle.text.specs.Sentence.{Fitting, message_of, said, say as say_so, spoken_of};

use crate::kind::Kind;
use lease::{Fault, Grant, Request};
use wire::{Message, read};

// A message that a line says by its kind and numbers; those that the kind has not are 0.
// An array of the most that a kind has, since no memory is taken to say a message.
#[derive(Clone, Copy, Debug, PartialEq, Eq)]
pub struct Sentence {
    pub kind: Kind,
    pub figures: [u64; 3],
}

// How a message's bytes are said: also those that are no message.
#[derive(Clone, Copy, Debug, PartialEq, Eq)]
pub enum Spoken {
    Tick,
    Raw,
    Say(Sentence),
}

fn say(kind: Kind, figures: [u64; 3]) -> Spoken
    ensures { result ≡ say_so kind figures }
{
    Spoken::Say(Sentence { kind, figures })
}

impl From<Message> for Spoken {
    ghost from_gives = { λ message spoken. spoken ≡ said message };

    fn from(message: Message) -> Spoken {
        match message {
            Message::Request(request) => say(
                Kind::Request,
                [
                    u64::from(request.client),
                    request.nonce,
                    u64::from(request.preferred),
                ],
            ),
            Message::Grant(grant) => say(
                Kind::Grant,
                [
                    u64::from(grant.client),
                    grant.nonce,
                    u64::from(grant.address),
                ],
            ),
            Message::Settings {
                addresses,
                term,
                skew,
            } => say(
                Kind::Settings,
                [u64::from(addresses), u64::from(term), u64::from(skew)],
            ),
            Message::Tick => Spoken::Tick,
            Message::Crash => say(Kind::Crash, [0; 3]),
            Message::Restart { clock } => say(Kind::Restart, [clock, 0, 0]),
            Message::OwnNumber { client } => say(Kind::Number, [u64::from(client), 0, 0]),
            Message::Nonce { nonce } => say(Kind::Nonce, [nonce, 0, 0]),
            Message::InUse { address, until } => say(Kind::InUse, [u64::from(address), until, 0]),
            Message::NoAddress => say(Kind::NoAddress, [0; 3]),
            Message::Fault(fault) => say(Kind::Fault, [u64::from(fault.number()), 0, 0]),
        }
    }
}

// How these bytes are said.
pub fn how_said(bytes: &[u8]) -> Spoken
    ensures { result ≡ spoken_of bytes.now }
{
    read(bytes).map_or(Spoken::Raw, Spoken::from)
}

// The message of this kind with these numbers, if there is one.
pub fn message(kind: Kind, figures: [u64; 3]) -> Option<Message>
    requires { Fitting (kind-fields kind) figures }
    ensures { result ≡ message_of kind figures }
{
    let [first, second, third] = figures;
    let message = match kind {
        Kind::Settings => Message::Settings {
            addresses: first as u16,
            term: second as u32,
            skew: third as u16,
        },
        Kind::Number => Message::OwnNumber {
            client: first as u32,
        },
        Kind::Nonce => Message::Nonce { nonce: first },
        Kind::Request => Message::Request(Request {
            client: first as u32,
            nonce: second,
            preferred: third as u16,
        }),
        Kind::Grant => Message::Grant(Grant {
            client: first as u32,
            nonce: second,
            address: third as u16,
        }),
        Kind::Crash => Message::Crash,
        Kind::Restart => Message::Restart { clock: first },
        Kind::InUse => Message::InUse {
            address: first as u16,
            until: second,
        },
        Kind::NoAddress => Message::NoAddress,
        Kind::Fault => Message::Fault(Fault::try_from(first as u8).ok()?),
    };
    Some(message)
}

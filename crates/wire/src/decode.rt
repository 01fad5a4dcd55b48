ghost use Rattle.std.specs.Prelude.{◌≡◌, length, MatchResult, slice_index};
ghost use Rattle.lease.specs.Fault.{fault_of};
ghost use Rattle.wire.specs.Decode.{decoded, judged, pool, received as receives};
ghost use Rattle.wire.specs.Laws.{Taken};
ghost use Rattle.wire.specs.Kind.{kind_of, table};
ghost use Rattle.wire.specs.Refused.{Refused};
ghost use Rattle.wire.specs.Read.{fields_at, read_as};

use crate::kind::Kind;
use crate::message::Message;
use crate::numbers::array_at;
use crate::reader::Reader;
use lease::{Fault, Grant, Request, Settings};

// The fault that this number stands for.
pub fn fault_numbered(number: u8) -> Option<Fault>
    ensures { result ≡ fault_of number }
{
    Fault::try_from(number).ok()
}

// Each field stands at the protocol's own number, as in the table of specs/Read.
fn fields(kind: Kind, bytes: &[u8]) -> Option<Message>
    requires { length bytes.now ≡ (table kind).size }
    ensures { result ≡ fields_at kind bytes.now }
{
    let message = match kind {
        Kind::Request => Message::Request(Request {
            client: u32::from_be_bytes(array_at(bytes, 1)),
            nonce: u64::from_be_bytes(array_at(bytes, 5)),
            preferred: u16::from_be_bytes(array_at(bytes, 13)),
        }),
        Kind::Grant => Message::Grant(Grant {
            client: u32::from_be_bytes(array_at(bytes, 1)),
            nonce: u64::from_be_bytes(array_at(bytes, 5)),
            address: u16::from_be_bytes(array_at(bytes, 13)),
        }),
        Kind::Settings => Message::Settings {
            addresses: u16::from_be_bytes(array_at(bytes, 1)),
            term: u32::from_be_bytes(array_at(bytes, 3)),
            skew: u16::from_be_bytes(array_at(bytes, 7)),
        },
        Kind::Tick => Message::Tick,
        Kind::Crash => Message::Crash,
        Kind::Restart => Message::Restart {
            clock: u64::from_be_bytes(array_at(bytes, 1)),
        },
        Kind::OwnNumber => Message::OwnNumber {
            client: u32::from_be_bytes(array_at(bytes, 1)),
        },
        Kind::Nonce => Message::Nonce {
            nonce: u64::from_be_bytes(array_at(bytes, 1)),
        },
        Kind::InUse => Message::InUse {
            address: u16::from_be_bytes(array_at(bytes, 1)),
            until: u64::from_be_bytes(array_at(bytes, 3)),
        },
        Kind::NoAddress => Message::NoAddress,
        Kind::Fault => Message::Fault(fault_numbered(bytes[1])?),
    };
    Some(message)
}

// The message that these bytes are, whoever reads them.
pub fn read(bytes: &[u8]) -> Option<Message>
    ensures { result ≡ read_as (kind_of (slice_index bytes.now 0)) bytes.now }
{
    let kind = Kind::try_from(*bytes.first()?).ok()?;
    if bytes.len() != usize::from(kind.size()) {
        return None;
    }
    fields(kind, bytes)
}

// What a server or a client that knows these settings answers to a message that it takes.
fn received(settings: Option<Settings>, message: Message) -> Result<Message, Fault>
    ensures { result ≡ receives (pool settings) message }
{
    match message {
        Message::Request(request) => {
            let known = settings.ok_or(Fault::BadSettings)?;
            if request.preferred > known.addresses() {
                return Err(Fault::BadAddress);
            }
        }
        Message::Grant(grant) => {
            let known = settings.ok_or(Fault::BadSettings)?;
            if grant.address >= known.addresses() {
                return Err(Fault::BadAddress);
            }
        }
        Message::Settings {
            addresses,
            term,
            skew,
        } => {
            if settings.is_some() {
                return Err(Fault::BadSettings);
            }
            Settings::new(addresses, term, skew)?;
        }
        _ => {}
    }
    Ok(message)
}

// What a reader that knows these settings answers to a message.
fn judge(reader: Reader, settings: Option<Settings>, message: Message) -> Result<Message, Fault>
    ensures { result ≡ judged reader (pool settings) message }
{
    if !reader.takes(message.kind()) {
        return Err(Fault::Malformed);
    }
    match reader {
        Reader::Server | Reader::Client => received(settings, message),
        Reader::Tool => Ok(message),
    }
}

impl Message {
    // What these bytes say to a reader that knows these settings: a message, or the first fault met in reading them.
    #[tactic(auto, unfolding(crate::specs::Read::read))]
    pub fn decode(
        reader: Reader,
        settings: Option<Settings>,
        bytes: &[u8],
    ) -> Result<Message, Fault>
        ensures value { result ≡ decoded reader (pool settings) bytes.now }
        ensures law { MatchResult result (λ m. Taken reader (pool settings) bytes.now m) (λ f. Refused reader (pool settings) bytes.now f) }
    {
        // taken apart by let .. else, one of the named forms (docs/DECISIONS.md)
        let Some(message) = read(bytes) else {
            return Err(Fault::Malformed);
        };
        judge(reader, settings, message)
    }
}

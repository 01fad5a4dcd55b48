ghost use Rattle.std.specs.Prelude.{◌≡◌, ◌<◌};
ghost use Rattle.wire.specs.Read.{read as reading};
ghost use Rattle.replay.specs.Parties.{place_of};

use system::Party;
use wire::Message;

// The bytes of a message that comes to a party, and what they say; a client is one of 64.
#[derive(Clone, Copy)]
pub struct Hearing<'a> {
    pub(crate) party: Party,
    pub(crate) bytes: &'a [u8],
    pub(crate) heard: Option<Message>,
    ghost placed: { place_of party < 65 },
    ghost understood: { heard ≡ reading bytes.now },
}

ghost use Rattle.std.specs.Prelude.{◌≡◌, ◌+◌, ◌≤◌, true, ◌++◌, length, is_ok, if◌then◌else◌, vec_len, vec_capacity};
ghost use Rattle.wire.specs.Laws.{Unmistakable};
ghost use Rattle.wire.specs.Message.{encoded, fields};
ghost use Rattle.wire.specs.Stream.{framed};

use crate::message::Message;
use std::alloc::AllocError;

const MOST_BYTES: usize = 16;

// How many bytes any message has at most, its length among them.
pub fn most_bytes() -> usize
    ensures { result ≡ 16 }
{
    MOST_BYTES
}

// Appends bytes for which there is room.
fn put(out: &mut Vec<u8>, bytes: &[u8])
    requires { vec_len out.old + length bytes.now ≤ vec_capacity out.old }
    ensures items { out.new.items ≡ out.old.items ++ bytes.now }
    ensures len { vec_len out.new ≡ vec_len out.old + length bytes.now }
    ensures capacity { vec_capacity out.old ≤ vec_capacity out.new }
{
    out.extend_from_slice(bytes).unwrap();
}

// Appends the message's fields, for which there is room: one by one, since their widths are types and no list holds them.
#[tactic(auto, using(std::proofs::Common::append_assoc), unfolding(crate::specs::Numbers::bytes2, crate::specs::Numbers::bytes4, crate::specs::Numbers::bytes8))]
fn put_fields(out: &mut Vec<u8>, message: Message)
    requires { vec_len out.old + length (fields message) ≤ vec_capacity out.old }
    ensures items { out.new.items ≡ out.old.items ++ fields message }
    ensures len { vec_len out.new ≡ vec_len out.old + length (fields message) }
    ensures capacity { vec_capacity out.old ≤ vec_capacity out.new }
{
    match message {
        Message::Request(request) => {
            put(out, &request.client.to_be_bytes());
            put(out, &request.nonce.to_be_bytes());
            put(out, &request.preferred.to_be_bytes());
        }
        Message::Grant(grant) => {
            put(out, &grant.client.to_be_bytes());
            put(out, &grant.nonce.to_be_bytes());
            put(out, &grant.address.to_be_bytes());
        }
        Message::Settings {
            addresses,
            term,
            skew,
        } => {
            put(out, &addresses.to_be_bytes());
            put(out, &term.to_be_bytes());
            put(out, &skew.to_be_bytes());
        }
        Message::Tick | Message::Crash | Message::NoAddress => {}
        Message::Restart { clock } => put(out, &clock.to_be_bytes()),
        Message::OwnNumber { client } => put(out, &client.to_be_bytes()),
        Message::Nonce { nonce } => put(out, &nonce.to_be_bytes()),
        Message::InUse { address, until } => {
            put(out, &address.to_be_bytes());
            put(out, &until.to_be_bytes());
        }
        Message::Fault(fault) => put(out, &[fault.number()]),
    }
}

impl Message {
    // Appends the message's bytes, with their length before them; without the memory for it, nothing.
    #[tactic(auto, using(crate::proofs::Readings::sized, crate::proofs::Readings::longest, crate::proofs::Readings::unmistakable, std::proofs::Common::append_assoc))]
    pub fn encode(self, out: &mut Vec<u8>) -> Result<(), AllocError>
        ensures items { out.new.items ≡ (if is_ok result then out.old.items ++ framed (encoded self) else out.old.items) }
        ensures len { vec_len out.new ≡ (if is_ok result then vec_len out.old + length (framed (encoded self)) else vec_len out.old) }
        ensures capacity { vec_capacity out.old ≤ vec_capacity out.new }
        ensures succeeds { vec_len out.old + length (framed (encoded self)) ≤ vec_capacity out.old → is_ok result ≡ true }
        ensures bound { length (framed (encoded self)) ≤ 16 }
        ensures unmistakable { Unmistakable self }
    {
        let kind = self.kind();
        out.reserve(usize::from(kind.size()) + 1)?;
        put(out, &[kind.size(), kind.number()]);
        put_fields(out, self);
        Ok(())
    }
}

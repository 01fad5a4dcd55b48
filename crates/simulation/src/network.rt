ghost use Rattle.std.specs.Prelude.{◌≡◌};
ghost use Rattle.std.specs.Option.{option_map};
ghost use Rattle.lease.specs.World.{elem, sent as sent_at};
ghost use Rattle.simulation.specs.Play.{message_of, messages_of, nonces, draws_it};

use crate::event::Sent;

// The message after which so many were sent.
pub(crate) fn message(sent: &[Sent], which: usize) -> Option<Sent>
    ensures { option_map message_of result ≡ sent_at which (messages_of sent.now) }
{
    // by place, since nth goes over all that were sent since
    if which >= sent.len() {
        return None;
    }
    Some(sent[sent.len() - 1 - which])
}

// It is a request with this nonce.
fn draws(message: Sent, nonce: u64) -> bool
    ensures { result ≡ draws_it nonce (message_of message) }
{
    matches!(message, Sent::Request(request) if nonce == request.nonce)
}

// One of the requests has this nonce.
pub(crate) fn was_drawn(sent: &[Sent], nonce: u64) -> bool
    ensures { result ≡ elem nonce (nonces (messages_of sent.now)) }
{
    sent.iter().any(|m| draws(*m, nonce))
}

ghost use Rattle.std.specs.Prelude.{◌≡◌};
ghost use Rattle.std.specs.Option.{option_to_list};
ghost use Rattle.system.specs.Watch.{exhausted_by, fault_in, is_tick_in, nonce_in, start_in};

use lease::Fault;
use wire::Message;

// A clock can be set below this.
const CLOCK_END: u64 = 1 << 63;

pub(crate) fn is_tick(heard: Option<Message>) -> bool
    ensures { result ≡ is_tick_in heard }
{
    matches!(heard, Some(Message::Tick))
}

// The clock of a restart that is taken.
pub(crate) fn start_in(heard: Option<Message>) -> Option<u64>
    ensures { result ≡ start_in heard }
{
    let Some(Message::Restart { clock }) = heard else {
        return None;
    };
    (clock < CLOCK_END).then_some(clock)
}

pub(crate) fn nonce_in(heard: Option<Message>) -> Option<u64>
    ensures { option_to_list result ≡ nonce_in heard }
{
    let Some(Message::Nonce { nonce }) = heard else {
        return None;
    };
    Some(nonce)
}

// A count came to its end.
pub(crate) fn is_exhausted(message: Message) -> bool
    ensures { result ≡ exhausted_by (fault_in message) }
{
    matches!(message, Message::Fault(Fault::CountExhausted))
}

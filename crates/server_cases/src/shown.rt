ghost use Rattle.std.specs.Prelude.{Some};
ghost use Rattle.server_cases.specs.Words.{effect_words};

use journal::Written;
use server::Effect;
use std::fmt;
use wire::Message;

// An effect, as it is printed.
#[derive(Clone, Copy)]
pub struct Shown(pub Effect);

impl fmt::Display for Shown {
    ghost output = { λ shown. Some (effect_words shown.0) };

    fn fmt<W: fmt::Write>(&self, f: &mut fmt::Formatter<W>) -> fmt::Result {
        match self.0 {
            Effect::Persist(Written { first, count }) => write!(f, "persist {first} {count}"),
            Effect::Send(Message::Grant(grant)) => {
                write!(
                    f,
                    "grant {} {} {}",
                    grant.client, grant.nonce, grant.address
                )
            }
            Effect::Send(Message::Fault(fault)) => write!(f, "fault {}", fault.number()),
            Effect::Send(_) => f.write_str("another message"),
        }
    }
}

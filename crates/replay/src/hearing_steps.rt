ghost use Rattle.std.specs.Prelude.{◌≡◌, ℕ, ◌<◌, ◌≤◌, List, MatchOption};
ghost use Rattle.replay.specs.Hearing.{event_in};
ghost use Rattle.replay.specs.Heard.{called_by};
ghost use Rattle.replay.specs.Parties.{event_of, place_of};

use crate::hearing::Hearing;
use system::Party;
use wire::read;

// The party of a number: 0 is the server, and 1 to 64 are clients.
// No TryFrom is plainer: system's Party is of any place, and the bound of 64 and the clause's events are of this crate.
fn party_at(who: u8) -> Option<Party>
    ensures { MatchOption result (65 ≤ who) (λ p. (place_of p < 65) × ((bs : List ℕ) → event_of p bs ≡ called_by who bs)) }
{
    match who {
        0 => Some(Party::Server),
        1..=64 => Some(Party::Client(who)),
        _ => None,
    }
}

impl<'a> Hearing<'a> {
    // What comes to the party of a number, if there is one.
    pub(crate) fn of(who: u8, bytes: &'a [u8]) -> Option<Hearing<'a>>
        ensures { MatchOption result (65 ≤ who) (λ h. event_in h ≡ called_by who bytes.now) }
    {
        let party = party_at(who)?;
        let heard = read(bytes);
        Some(Hearing {
            party,
            bytes,
            heard,
        })
    }
}

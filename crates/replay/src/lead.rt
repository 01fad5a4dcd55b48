ghost use Rattle.std.specs.Prelude.{◌≡◌};
ghost use Rattle.std.specs.Option.{option_map};
ghost use Rattle.system.specs.Watch.{lead as leads, widened, wide};
ghost use Rattle.replay.specs.Lead.{lead_of};

use lease::Clock;

// So much is added to how far a client's clock is ahead of the server's, since it can be behind.
const LEVEL: u64 = 1 << 63;

// How far a client's clock was ahead of the server's, least and most, since the client's start.
#[derive(Clone, Copy, Debug, PartialEq, Eq)]
pub struct Lead {
    pub(crate) least: u64,
    pub(crate) most: u64,
}

pub(crate) fn lead_of(client: Clock, server: Clock) -> u64
    ensures { result ≡ leads client.ticks server.ticks }
{
    client.ticks() + LEVEL - server.ticks()
}

// One moment more.
pub(crate) fn widen(known: Option<Lead>, now: u64) -> Lead
    ensures { lead_of result ≡ widened «now» (option_map lead_of known) }
{
    let first = Lead {
        least: now,
        most: now,
    };
    known.map_or(
        first,
        |lead| Lead {
            least: lead.least.min(now),
            most: lead.most.max(now),
        },
    )
}

// The clocks went on by amounts that differ by more than the skew.
pub(crate) fn is_wide(known: Option<Lead>, skew: u16) -> bool
    ensures { result ≡ wide skew (option_map lead_of known) }
{
    known.is_some_and(|lead| lead.most.saturating_sub(lead.least) > u64::from(skew))
}

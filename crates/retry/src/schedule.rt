ghost use Rattle.std.specs.Prelude.{◌≡◌, None};
ghost use Rattle.retry.specs.Schedule.{lasts, longer as lengthened, renewal, starting, requested, renewing, is_due};

use lease::Clock;

// So long a client lets its server alone after each request while it uses an address.
const LEAST_RENEWAL: u64 = 60;

// How long a client without an address waits after a request before it asks again: the ticks of each pause are its number.
#[derive(Clone, Copy, PartialEq, Eq, Debug)]
pub enum Pause {
    Four = 4,
    Eight = 8,
    Sixteen = 16,
    ThirtyTwo = 32,
    SixtyFour = 64,
}

impl Pause {
    pub fn ticks(self) -> u64
        ensures { result ≡ lasts self }
    {
        self as u64
    }

    // The pause after this one.
    pub fn longer(self) -> Pause
        ensures { result ≡ lengthened self }
    {
        match self {
            Pause::Four => Pause::Eight,
            Pause::Eight => Pause::Sixteen,
            Pause::Sixteen => Pause::ThirtyTwo,
            Pause::ThirtyTwo | Pause::SixtyFour => Pause::SixtyFour,
        }
    }
}

// The tick from which a client's next request is due, and the pause after its next request without an address.
#[derive(Clone, Copy, PartialEq, Eq, Debug)]
pub struct Schedule {
    next: u64,
    pause: Pause,
}

// How long after a request with so many ticks of use left the renewal follows.
fn renewal_after(left: u64) -> u64
    ensures { result ≡ renewal left }
{
    left.div_ceil(2).max(LEAST_RENEWAL)
}

impl Schedule {
    // A client that has just started or restarted asks at once.
    pub fn start(clock: Clock) -> Schedule
        ensures { result ≡ starting clock.ticks }
    {
        Schedule {
            next: clock.ticks(),
            pause: Pause::Four,
        }
    }

    pub fn due(self, clock: Clock) -> bool
        ensures { result ≡ is_due self clock.ticks }
    {
        self.next <= clock.ticks()
    }

    // So many ticks of use are left at this clock: the renewal follows after half of them.
    fn renewing(self, clock: Clock, left: u64) -> Schedule
        ensures { result ≡ renewing self clock.ticks left }
    {
        Schedule {
            next: clock.ticks() + renewal_after(left),
            ..self
        }
    }

    // No address is in use at this clock: the next request follows after the pause.
    fn pausing(self, clock: Clock) -> Schedule
        ensures { result ≡ requested self clock.ticks None }
    {
        Schedule {
            next: clock.ticks() + self.pause.ticks(),
            pause: self.pause.longer(),
        }
    }

    // A request is sent; `until` is the last tick of the address in use, if there is one.
    pub fn asked(self, clock: Clock, until: Option<u64>) -> Schedule
        ensures { result ≡ requested self clock.ticks until }
    {
        until.map_or_else(
            || self.pausing(clock),
            |last| self.renewing(clock, last.saturating_sub(clock.ticks())),
        )
    }

    // The grant for the request sent at `asked` is taken.
    pub fn granted(self, asked: Clock, term: u32) -> Schedule
        ensures { result ≡ renewing self asked.ticks term }
    {
        self.renewing(asked, u64::from(term))
    }

    // The address in use expired: the client asks at once, and its pauses begin anew.
    pub fn expired(self, clock: Clock) -> Schedule
        ensures { result ≡ starting clock.ticks }
    {
        Schedule::start(clock)
    }
}

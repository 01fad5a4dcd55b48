ghost use Rattle.std.specs.Prelude.{◌≡◌, ◌+◌, ◌^◌, ◌<◌, ◌≤◌, MatchResult};
ghost use Rattle.lease.specs.declared.fault.Fault.TheVariants.{CountExhausted};

use crate::fault::Fault;

// A count of ticks of a second, below 2^63 so that a term can always be added.
#[derive(Clone, Copy, PartialEq, Eq, Debug)]
pub struct Clock {
    pub(crate) ticks: u64,
    ghost early: { ticks < 2 ^ 63 },
}

// A clock that shows so many ticks; refused where there is none.
impl TryFrom<u64> for Clock {
    type Error = Fault;

    ghost try_from_gives = { λ ticks result. MatchResult result (λ c. c.ticks ≡ ticks) (λ f. (f ≡ CountExhausted) × (2 ^ 63 ≤ ticks)) };

    fn try_from(ticks: u64) -> Result<Self, Fault> {
        if ticks >= 1 << 63 {
            return Err(Fault::CountExhausted);
        }
        Ok(Clock { ticks })
    }
}

impl Clock {
    pub fn zero() -> Clock
        ensures { result.ticks ≡ 0 }
    {
        Clock { ticks: 0 }
    }

    // The clock so many ticks later; refused where there is none.
    pub fn after(self, ticks: u64) -> Result<Clock, Fault>
        ensures { MatchResult result (λ c. c.ticks ≡ self.ticks + ticks) (λ f. (f ≡ CountExhausted) × (2 ^ 63 ≤ self.ticks + ticks)) }
    {
        let sum = self.ticks.checked_add(ticks).ok_or(Fault::CountExhausted)?;
        Clock::try_from(sum)
    }

    pub fn ticks(self) -> u64
        ensures { result ≡ self.ticks }
    {
        self.ticks
    }
}

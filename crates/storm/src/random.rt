ghost use Rattle.std.specs.Prelude.{◌≡◌, ◌<◌};
ghost use Rattle.rand_xoshiro.specs.SplitMix64.{mix_u64};
ghost use Rattle.storm.specs.Random.{mixed as mixes};

use rand_core::SeedableRng;
use rand_core::utils::NextWord;
use rand_xoshiro::SplitMix64;

// What the state of SplitMix64 goes on by.
const STRIDE: u64 = 0x9e37_79b9_7f4a_7c15;

// The number that SplitMix64 gives as it comes to a state.
fn mixed(state: u64) -> u64
    ensures { result ≡ mixes state }
{
    SplitMix64::seed_from_u64(state.wrapping_sub(STRIDE)).next_word()
}

// Numbers that look drawn, the same in every run. Draws below an end fit the type of the end: the default that stands where one is cut to it never comes.
#[derive(Drop)]
pub struct Random {
    numbers: SplitMix64,
}

impl Random {
    // The numbers of one run among those of a seed.
    pub fn new(seed: u64, run: u64) -> Random {
        let state = mixed(mixed(seed).wrapping_add(run));
        Random {
            numbers: SplitMix64::seed_from_u64(state),
        }
    }

    pub fn next(&mut self) -> u64
        ensures { (result, self.new.numbers) ≡ mix_u64 self.old.numbers }
    {
        self.numbers.next_word()
    }

    // A number below `end`; 0 if there is none.
    pub fn below(&mut self, end: u64) -> u64
        ensures { 0 < end → result < end }
    {
        let drawn = self.next();
        if end == 0 { 0 } else { drawn % end }
    }

    // A place in a list that has so many; 0 if it has none.
    pub fn index(&mut self, len: usize) -> usize
        ensures { 0 < len → result < len }
    {
        self.below(len as u64) as usize
    }

    // True so many times in a hundred.
    pub fn percent(&mut self, times: u64) -> bool {
        self.below(100) < times
    }
}

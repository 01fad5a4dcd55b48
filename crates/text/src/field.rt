ghost use Rattle.std.specs.Prelude.{◌≡◌};
ghost use Rattle.text.specs.Field.{range};

// A number that a line has, by what it says.
#[derive(Clone, Copy, Debug, PartialEq, Eq)]
pub enum Field {
    Addresses,
    Term,
    Skew,
    Client,
    Nonce,
    Preferred,
    Address,
    Clock,
    Until,
    Fault,
    // how often a tick is repeated
    Times,
    // which client an entry is for
    Party,
}

impl Field {
    pub fn least(self) -> u64
        ensures { result ≡ (range self).least }
    {
        match self {
            Field::Fault | Field::Times | Field::Party => 1,
            Field::Addresses | Field::Skew | Field::Preferred | Field::Address => 0,
            Field::Term | Field::Client => 0,
            Field::Nonce | Field::Clock | Field::Until => 0,
        }
    }

    pub fn most(self) -> u64
        ensures { result ≡ (range self).most }
    {
        match self {
            Field::Fault => 9,
            Field::Times => 1_000_000,
            Field::Party => 64,
            Field::Addresses | Field::Skew | Field::Preferred | Field::Address => 0xffff,
            Field::Term | Field::Client => 0xffff_ffff,
            Field::Nonce | Field::Clock | Field::Until => 0xffff_ffff_ffff_ffff,
        }
    }
}

use crate::random::Random;
use system::{Party, Premise};

// How large runs are at most, and of how many passings of a hundred time leaps.
#[derive(Clone, Copy)]
struct Scale {
    addresses: u64,
    clients: u64,
    leaps: u64,
}

const LARGE: Scale = Scale {
    addresses: 8,
    clients: 12,
    leaps: 4,
};

// At this scale a broken premise soon comes to two users.
const SMALL: Scale = Scale {
    addresses: 2,
    clients: 4,
    leaps: 20,
};

const LEAST_TERM: u64 = 60;

const MOST_TERM: u64 = 300;

const MOST_SKEW: u64 = 20;

const LEAST_CLIENTS: u64 = 2;

// The places of the clients with which premises are broken.
pub const FIRST: u8 = 1;

pub const SECOND: u8 = 2;

const LEAST_ACTS: u64 = 50;

const MOST_ACTS: u64 = 300;

// What a run is like.
#[derive(Clone, Copy)]
pub struct Plan {
    // the term that is told differs by party, so the three are no one value
    pub addresses: u16,
    pub term: u32,
    pub skew: u16,
    // how far a clock may run apart from the server's
    pub drift: u64,
    pub clients: u8,
    // the number of the client at place 0, and the nonce that is lent first
    pub first_number: u32,
    pub first_nonce: u64,
    // how many acts the run has
    pub acts: u64,
    // of a hundred messages that are brought so many are lost, and so many stay to be repeated
    pub loss: u64,
    pub repeats: u64,
    // of a hundred acts so many are crashes or restarts
    pub crashes: u64,
    // of a hundred acts so many lend a nonce
    pub nonces: u64,
    // of a hundred passings so many are as long as a lease lives
    pub leaps: u64,
    // the premise that the run breaks
    broken: Option<Premise>,
}

fn between(random: &mut Random, least: u64, most: u64) -> u64 {
    least.wrapping_add(random.below(most.wrapping_sub(least).wrapping_add(1)))
}

impl Plan {
    pub fn draw(random: &mut Random, broken: Option<Premise>) -> Plan {
        let term = between(random, LEAST_TERM, MOST_TERM);
        let skew = between(random, 0, MOST_SKEW);
        let drift = if broken == Some(Premise::Clocks) {
            skew.wrapping_add(term)
        } else {
            skew
        };
        let scale = if broken.is_some() { SMALL } else { LARGE };
        Plan {
            addresses: u16::try_from(between(random, 1, scale.addresses)).unwrap_or(1),
            term: u32::try_from(term).unwrap_or(60),
            skew: u16::try_from(skew).unwrap_or(0),
            drift,
            clients: u8::try_from(between(random, LEAST_CLIENTS, scale.clients)).unwrap_or(2),
            first_number: u32::try_from(random.below(1 << 32)).unwrap_or(0),
            first_nonce: random.next(),
            acts: between(random, LEAST_ACTS, MOST_ACTS),
            loss: random.below(30),
            repeats: random.below(60),
            crashes: random.below(12),
            nonces: between(random, 5, 25),
            leaps: scale.leaps,
            broken,
        }
    }

    pub fn breaks(&self, premise: Premise) -> bool {
        self.broken == Some(premise)
    }

    // The number of the client at a place; two have one where the run breaks that.
    pub fn number(&self, place: u8) -> u32 {
        let place = if self.breaks(Premise::Number) && place == SECOND {
            FIRST
        } else {
            place
        };
        self.first_number.wrapping_add(u32::from(place))
    }

    // The client that has a number.
    pub fn party(&self, number: u32) -> Option<Party> {
        let place = u8::try_from(number.wrapping_sub(self.first_number)).ok()?;
        let clients = 1..=self.clients;
        clients.contains(&place).then_some(Party::Client(place))
    }

    // The nonce that is lent after so many others; one for all where the run breaks that.
    pub fn nonce(&self, count: u64) -> u64 {
        if self.breaks(Premise::Nonce) {
            return self.first_nonce;
        }
        self.first_nonce.wrapping_add(count)
    }

    // The term that the party at a place is told; a long one to the first where the run breaks that.
    pub fn term(&self, place: u8) -> u32 {
        if self.breaks(Premise::Settings) && place == FIRST {
            return self.term.wrapping_mul(4);
        }
        self.term
    }
}

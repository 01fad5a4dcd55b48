use crate::net::Letter;
use lease::Fault;

// How many faults there are; they are numbered from 1 on.
const FAULTS: usize = 9;

// What happened in runs, in numbers.
#[derive(Clone, Copy, Default)]
pub struct Tally {
    pub runs: u64,
    pub entries: u64,
    pub requests: u64,
    pub grants: u64,
    // grants that a client took
    pub taken: u64,
    pub client_crashes: u64,
    pub client_restarts: u64,
    pub server_crashes: u64,
    pub server_restarts: u64,
    // never brought; brought once more; brought long after they were sent; brought to another
    pub lost: u64,
    pub repeated: u64,
    pub late: u64,
    pub astray: u64,
    pub garbage: u64,
    // uses that ended by the client's clock
    pub expired: u64,
    // grants of an address whose last grant was another client's
    pub lent_on: u64,
    // by the faults' numbers, which are 1 to 9
    pub faults: [u64; FAULTS],
}

pub fn count(n: &mut u64) {
    *n = n.saturating_add(1);
}

impl Tally {
    pub fn count_fault(&mut self, fault: Fault) {
        let i = usize::from(fault.number()).wrapping_sub(1);
        if let Some(times) = self.faults.get_mut(i) {
            count(times);
        }
    }

    pub fn count_lost(&mut self, letter: Letter) {
        if letter.brought == 0 {
            count(&mut self.lost);
        }
    }
}

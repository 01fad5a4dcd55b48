ghost use Rattle.std.specs.Prelude.{◌≡◌, ◌*◌, ◌<◌, ◌≤◌, true, false, MatchResult};
ghost use Rattle.lease.specs.declared.fault.Fault.TheVariants.{BadSettings};
ghost use Rattle.lease.specs.Settings.{valid, life as lives, outlasts, silence as silences};

use crate::fault::Fault;

const MOST_ADDRESSES: u16 = 1024;

const LEAST_TERM: u32 = 60;

const MOST_TERM: u32 = 86_400;

const MOST_SKEW: u16 = 600;

// What all parties of a run share: the pool's size, how long an address is lent for, and how far two clocks may drift apart meanwhile.
#[derive(Clone, Copy, PartialEq, Eq, Debug)]
pub struct Settings {
    pub(crate) addresses: u16,
    pub(crate) term: u32,
    pub(crate) skew: u16,
    ghost some: { 1 ≤ addresses },
    ghost few: { addresses ≤ 1024 },
    ghost long: { 60 ≤ term },
    ghost short: { term ≤ 86400 },
    ghost near: { skew ≤ 600 },
    ghost within: { 2 * skew < term },
}

// The largest pool.
pub fn most_addresses() -> u16
    ensures { result ≡ 1024 }
{
    MOST_ADDRESSES
}

impl Settings {
    ghost use Rattle.lease.specs.Of.{settings_of};

    // Settings within their ranges; refused otherwise.
    pub fn new(addresses: u16, term: u32, skew: u16) -> Result<Settings, Fault>
        ensures { MatchResult result (λ s. (s.addresses ≡ addresses) × (s.term ≡ term) × (s.skew ≡ skew) × (valid addresses term skew ≡ true)) (λ f. (f ≡ BadSettings) × (valid addresses term skew ≡ false)) }
    {
        if !(1..=MOST_ADDRESSES).contains(&addresses)
            || !(LEAST_TERM..=MOST_TERM).contains(&term)
            || skew > MOST_SKEW
            || 2 * u32::from(skew) >= term
        {
            return Err(Fault::BadSettings);
        }
        Ok(Settings {
            addresses,
            term,
            skew,
        })
    }

    pub fn addresses(self) -> u16
        ensures { result ≡ self.addresses }
    {
        self.addresses
    }

    pub fn term(self) -> u32
        ensures { result ≡ self.term }
    {
        self.term
    }

    pub fn skew(self) -> u16
        ensures { result ≡ self.skew }
    {
        self.skew
    }

    // How long a lease lives by the server's clock: it outlasts a term by a client's.
    pub fn life(self) -> u32
        ensures { result ≡ lives (settings_of self) }
    {
        self.outlasting(self.term)
    }

    // How long a server that lost its table lends nothing.
    pub fn silence(self) -> u32
        ensures { result ≡ silences (settings_of self) }
    {
        self.outlasting(self.life())
    }

    // What one clock may count while another counts `ticks`.
    fn outlasting(self, ticks: u32) -> u32
        requires { ticks ≤ 100000 }
        ensures { result ≡ outlasts (settings_of self) ticks }
    {
        ticks + u32::from(self.skew)
    }
}

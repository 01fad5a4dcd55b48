ghost use Rattle.std.specs.Prelude.{◌≡◌};
ghost use Rattle.lease.specs.Table.{live, leased};

use crate::clock::Clock;

// An address lent to a client, live while the server's clock shows at most `expires`.
#[derive(Clone, Copy, PartialEq, Eq, Debug)]
pub struct Lease {
    pub address: u16,
    pub client: u32,
    pub expires: u64,
}

impl Lease {
    // The lease of an address to a client, for so many ticks from now on.
    pub(crate) fn from_now(address: u16, client: u32, clock: Clock, life: u32) -> Lease
        ensures { result ≡ leased clock.ticks life client address }
    {
        Lease {
            address,
            client,
            expires: clock.ticks + u64::from(life),
        }
    }

    pub(crate) fn is_live(self, clock: Clock) -> bool
        ensures { result ≡ live clock.ticks self }
    {
        clock.ticks <= self.expires
    }
}

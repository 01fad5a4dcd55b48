use lease::Lease;

// A lease as it stands on the device: with its sequence number, and with how many leases its row began.
#[derive(Clone, Copy)]
pub struct Record {
    pub sequence: u64,
    pub base: u16,
    pub lease: Lease,
}

ghost use Rattle.std.specs.Prelude.{◌≡◌, length, Some};
ghost use Rattle.journal.specs.Bytes.{decoded, encoded, RoundTrip, ZerosAreBlank};

use crate::record::Record;
use crate::state::{PLACE, Place};
use checksum::crc32c;
use lease::Lease;
use std::ops::Range;

// Where a record's fields stand in its place, and last the sum of what stands before it.
const SEQUENCE: Range<usize> = 0..8;

const BASE: Range<usize> = 8..10;

const ADDRESS: Range<usize> = 10..12;

const CLIENT: Range<usize> = 12..16;

const EXPIRES: Range<usize> = 16..24;

const SUM: Range<usize> = 24..28;

// As many bytes as a number has; wire has a like function of a place in longer bytes, and a crate below both for it would be no plainer.
fn bytes_of<const N: usize>(part: &[u8]) -> [u8; N]
    requires { length part.now ≡ N }
    ensures { result ≡ part.now }
{
    let mut bytes = [0; N];
    bytes.copy_from_slice(part);
    bytes
}

impl Record {
    // Writes the record into its place.
    pub fn encode(self, place: &mut Place)
        ensures bytes { place.new ≡ encoded self }
        ensures back { decoded place.new ≡ Some self }
        ensures trip { RoundTrip }
    {
        place[SEQUENCE].copy_from_slice(&self.sequence.to_be_bytes());
        place[BASE].copy_from_slice(&self.base.to_be_bytes());
        place[ADDRESS].copy_from_slice(&self.lease.address.to_be_bytes());
        place[CLIENT].copy_from_slice(&self.lease.client.to_be_bytes());
        place[EXPIRES].copy_from_slice(&self.lease.expires.to_be_bytes());
        let sum = crc32c(&place[..SUM.start]);
        place[SUM].copy_from_slice(&sum.to_be_bytes());
    }

    // The record in a place's bytes, if its sum fits.
    pub fn decode(place: &[u8]) -> Option<Record>
        ensures value { result ≡ decoded place.now }
        ensures blank { ZerosAreBlank }
    {
        if place.len() != PLACE {
            return None;
        }
        let sum = crc32c(&place[..SUM.start]);
        if sum != u32::from_be_bytes(bytes_of(&place[SUM])) {
            return None;
        }
        Some(Record {
            sequence: u64::from_be_bytes(bytes_of(&place[SEQUENCE])),
            base: u16::from_be_bytes(bytes_of(&place[BASE])),
            lease: Lease {
                address: u16::from_be_bytes(bytes_of(&place[ADDRESS])),
                client: u32::from_be_bytes(bytes_of(&place[CLIENT])),
                expires: u64::from_be_bytes(bytes_of(&place[EXPIRES])),
            },
        })
    }
}

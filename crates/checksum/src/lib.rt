#![tactic(auto)]

// CRC-32C, the sum that tells a whole record from a torn one.
ghost use Rattle.std.specs.Prelude.{◌≡◌, ℕ, List, ◌++◌};
ghost use Rattle.checksum.specs.Crc.{crc, step as stepped, continued};
ghost use Rattle.checksum.specs.Crc.{CheckValue, ZerosDoNotFit};
ghost use Rattle.checksum.specs.Burst.{Has32Bits, DetectsBursts, DetectsChangedBytes};

mod table;

use table::entry;

const ALL_ONES: u32 = 0xFFFF_FFFF;

fn step(state: u32, byte: u8) -> u32
    ensures { result ≡ stepped state byte }
{
    entry(((state ^ byte as u32) & 0xff) as u8) ^ (state >> 8)
}

// The sum of a message that goes on with these bytes, from the sum of what came before.
pub fn crc32c_append(sum: u32, bytes: &[u8]) -> u32
    ensures value { result ≡ continued sum bytes.now }
    ensures joins { (before : List ℕ) → sum ≡ crc before → result ≡ crc (before ++ bytes.now) }
{
    let state = bytes
        .iter()
        .fold(sum ^ ALL_ONES, |state, byte| step(state, *byte));
    state ^ ALL_ONES
}

// The sum of a whole message.
pub fn crc32c(bytes: &[u8]) -> u32
    ensures value { result ≡ crc bytes.now }
    ensures word { Has32Bits }
    ensures bursts { DetectsBursts }
    ensures changes { DetectsChangedBytes }
{
    crc32c_append(0, bytes)
}

// The sum of "123456789", by which an implementation is told to be CRC-32C.
pub fn check_value() -> u32
    ensures published { CheckValue }
    ensures zeros { ZerosDoNotFit }
    ensures value { result ≡ 0xE3069283 }
{
    crc32c(b"123456789")
}

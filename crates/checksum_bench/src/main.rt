#![tactic(auto)]

// How fast the sum is, with the argument `time`; else sums that are the same in every run.
use checksum::{crc32c, crc32c_append};
use std::alloc::{AllocError, Global};
use std::time::Instant;
use std::{env, io};

const BUFFER: usize = 1 << 20;

const PASSES: usize = 64;

const RECORD: usize = 24;

// The best of several rounds is the one that the machine's other work disturbed least.
const ROUNDS: usize = 7;

// One buffer of bytes that look drawn: the numbers that the twin in plain Rust draws too.
fn noise(heap: Global) -> Result<Vec<u8>, AllocError> {
    let mut bytes = Vec::new(heap);
    let mut state: u32 = 1;
    for _ in 0..BUFFER {
        state = state.wrapping_mul(1_664_525).wrapping_add(1_013_904_223);
        bytes.push((state >> 24) as u8)?;
    }
    Ok(bytes)
}

// One message, the bytes again and again.
fn whole(bytes: &[u8]) -> u32 {
    (0..PASSES).fold(0, |sum, _| crc32c_append(sum, bytes))
}

// Records as a device has them, each pass cut from another byte on so that no pass repeats the last.
fn records(bytes: &[u8]) -> u32 {
    let mut all = 0;
    for pass in 0..PASSES.min(bytes.len()) {
        for record in bytes[pass..].chunks_exact(RECORD) {
            all ^= crc32c(record);
        }
    }
    all
}

// The sum that a step gives, and the microseconds that it took.
fn timed<F: FnOnce() -> u32>(rt: &HostRuntime, step: F) -> io::Result<(u32, u128)>
    requires { F.IsAlwaysCallable step }
{
    let start = Instant::now(rt)?;
    let sum = step();
    Ok((sum, start.elapsed(rt)?.as_micros()))
}

fn print_sums(rt: &HostRuntime, bytes: &[u8]) -> io::Result<()> {
    let text = crc32c(b"123456789");
    let zeros = crc32c(&[0; 32]);
    let ones = crc32c(&[0xff; 32]);
    let empty = crc32c(&[]);
    let whole = whole(bytes);
    let records = records(bytes);
    println!(rt;
        "123456789 {text:08x}, 32 zeros {zeros:08x}, 32 ones {ones:08x}, nothing {empty:08x}, whole {whole:08x}, records {records:08x}"
    )
}

// Microseconds that one pass over everything took.
fn print_times(rt: &HostRuntime, bytes: &[u8]) -> io::Result<()> {
    let mut whole_best = u128::MAX;
    let mut records_best = u128::MAX;
    let mut sums = 0;
    for _ in 0..ROUNDS {
        let (whole, whole_time) = timed(rt, || whole(bytes))?;
        let (records, records_time) = timed(rt, || records(bytes))?;
        whole_best = whole_best.min(whole_time);
        records_best = records_best.min(records_time);
        sums ^= whole ^ records;
    }
    println!(rt; "sums {sums:08x} whole {whole_best} records {records_best}")
}

fn main(rt: HostRuntime) -> io::Result<()> {
    let bytes = noise(rt.alloc())?;
    if env::args(&rt)?
        .nth(1)
        .is_some_and(|word| word.as_str() == "time")
    {
        return print_times(&rt, &bytes);
    }
    print_sums(&rt, &bytes)
}

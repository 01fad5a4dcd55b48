#![tactic(auto)]

// How fast the journal recovers and appends, with the argument `time`; else what it leaves, the same in every run.
use anyhow::{anyhow, bail};
use checksum::crc32c;
use journal::{Journal, device_bytes, device_places};
use lease::Lease;
use std::alloc::Global;
use std::env;
use std::time::Instant;

const ADDRESSES: usize = 1024;

const APPENDS: u64 = 1_000_000;

// All leases outlive the run.
const LONG: u64 = 1 << 40;

// Seventeen leases are live at a time.
const SHORT: u64 = 16;

const OPENINGS: usize = 50;

// The best of several rounds is the one that the machine's other work disturbed least.
const ROUNDS: usize = 7;

// Lends one address after the other, a tick each, from a new device on.
fn lend(heap: Global, term: u64) -> anyhow::Result<Journal> {
    let mut journal = Journal::blank(heap)?;
    let mut table: Vec<Option<Lease>> = vec![in heap; None; ADDRESSES]?;
    for clock in 0..APPENDS {
        let at = clock as usize % ADDRESSES;
        let lease = Lease {
            address: at as u16,
            client: clock as u32,
            expires: clock.wrapping_add(term),
        };
        journal
            .append(clock, &table, lease)
            .map_err(|_| anyhow!("an append is refused"))?;
        if let Some(entry) = table.get_mut(at) {
            *entry = Some(lease);
        }
    }
    Ok(journal)
}

// What a step gives, and the microseconds that it took.
fn timed<T: Drop, F: FnOnce() -> anyhow::Result<T>>(
    rt: &HostRuntime,
    step: F,
) -> anyhow::Result<(T, u128)>
    requires { F.IsAlwaysCallable step }
{
    let start = Instant::now(rt)?;
    let value = step()?;
    Ok((value, start.elapsed(rt)?.as_micros()))
}

// By place, since that is what the journal is asked for.
fn image_of(heap: Global, journal: &Journal) -> anyhow::Result<Vec<u8>> {
    let mut image = vec![in heap; 0u8; device_bytes()]?;
    for k in 0..device_places() {
        if !journal.store(k, &mut image) {
            bail!("no such place");
        }
    }
    Ok(image)
}

// Reads a device again and again; the sum is of the clients that were found.
fn recover(heap: Global, image: &[u8]) -> anyhow::Result<u32> {
    let mut table: Vec<Option<Lease>> = vec![in heap; None; ADDRESSES]?;
    let mut sum: u32 = 0;
    for _ in 0..OPENINGS {
        let mut journal = Journal::read(heap, image)?;
        let _ = journal.recover(&mut table);
        for lease in table.iter().flatten() {
            sum = sum.wrapping_add(lease.client);
        }
    }
    Ok(sum)
}

fn print_sums(rt: &HostRuntime, heap: Global) -> anyhow::Result<()> {
    let live = image_of(heap, &lend(heap, LONG)?)?;
    let few = image_of(heap, &lend(heap, SHORT)?)?;
    let recovered = recover(heap, &live)?;
    let live = crc32c(&live);
    let few = crc32c(&few);
    println!(rt; "live {live:08x}, few {few:08x}, recovered {recovered:08x}")?;
    Ok(())
}

// Microseconds that the openings took, and the appends with all leases live and with few.
fn print_times(rt: &HostRuntime, heap: Global) -> anyhow::Result<()> {
    let mut open_best = u128::MAX;
    let mut live_best = u128::MAX;
    let mut few_best = u128::MAX;
    let mut sums: u32 = 0;
    for _ in 0..ROUNDS {
        let (live, live_time) = timed(rt, || lend(heap, LONG))?;
        let (few, few_time) = timed(rt, || lend(heap, SHORT))?;
        let image = image_of(heap, &live)?;
        let (recovered, open_time) = timed(rt, || recover(heap, &image))?;
        live_best = live_best.min(live_time);
        few_best = few_best.min(few_time);
        open_best = open_best.min(open_time);
        sums ^= recovered ^ crc32c(&image) ^ crc32c(&image_of(heap, &few)?);
    }
    println!(rt; "sums {sums:08x} open {open_best} live {live_best} few {few_best}")?;
    Ok(())
}

fn main(rt: HostRuntime) -> anyhow::Result<()> {
    let heap = rt.alloc();
    if env::args(&rt)?
        .nth(1)
        .is_some_and(|word| word.as_str() == "time")
    {
        return print_times(&rt, heap);
    }
    print_sums(&rt, heap)
}

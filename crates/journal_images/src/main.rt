#![tactic(auto)]

// Opens devices whose bytes are written down in files, and prints what each is found to be and where its next record goes.
use anyhow::{Context, bail};
use journal::{Found, Journal, Record, Written, device_bytes, device_places};
use lease::Lease;
use std::alloc::{AllocError, Global};
use std::fs;

// The bytes of a place.
const PLACE: usize = 28;

const ADDRESSES: usize = 16;

// Of the leases in the files, those that outlive this tick are live.
const CLOCK: u64 = 1000;

// Two lower digits to a byte. The crate hex takes upper digits too, and says otherwise what is wrong.
fn bytes_of(heap: Global, digits: &str) -> anyhow::Result<Vec<u8>> {
    if !digits
        .bytes()
        .all(|byte| matches!(byte, b'0'..=b'9' | b'a'..=b'f'))
    {
        bail!("no hexadecimal digit");
    }
    if digits.len() % 2 == 1 {
        bail!("half a byte");
    }
    // only memory can be wanting now
    let bytes = hex::decode(heap, digits).map_err(|_| AllocError)?;
    Ok(bytes)
}

fn put(image: &mut [u8], place: usize, bytes: &[u8]) -> anyhow::Result<()> {
    if place >= device_places() {
        bail!("no such place");
    }
    let at = place * PLACE;
    image
        .get_mut(at..at + bytes.len())
        .context("past the device's end")?
        .copy_from_slice(bytes);
    Ok(())
}

// The first places of a row file.
fn put_row(
    rt: &HostRuntime,
    image: &mut [u8],
    place: usize,
    file: &str,
    count: usize,
) -> anyhow::Result<()> {
    let row = fs::read(rt, file)?;
    if count > device_places() / 2 {
        bail!("a row file is short");
    }
    let front = row.get(..count * PLACE).context("a row file is short")?;
    put(image, place, front)
}

// A device is mostly zeros, or a row that others have too. A line is a place and the bytes from there on, or a place, a row file and how many places of it stand from there on; a later line overwrites an earlier one.
fn image_of(rt: &HostRuntime, heap: Global, file: &str) -> anyhow::Result<Vec<u8>> {
    let mut image = vec![in heap; 0u8; device_bytes()]?;
    let text = fs::read_to_string(rt, file)?;
    for line in text.lines() {
        let (place, rest) = line
            .split_once(' ')
            .context("a line has a place and bytes")?;
        let place = place.parse::<usize>()?;
        match rest.split_once(' ') {
            Some((row, count)) => put_row(rt, &mut image, place, row, count.parse::<usize>()?)?,
            None => put(&mut image, place, &bytes_of(heap, rest)?)?,
        }
    }
    Ok(image)
}

fn show_lease(rt: &HostRuntime, lease: &Lease) -> anyhow::Result<()> {
    print!(rt; " {}:{}:{}", lease.address, lease.client, lease.expires)?;
    Ok(())
}

fn show_found(
    rt: &HostRuntime,
    name: &str,
    found: Found,
    table: &[Option<Lease>],
) -> anyhow::Result<()> {
    print!(rt; "{name}: {found}")?;
    for lease in table.iter().flatten() {
        show_lease(rt, lease)?;
    }
    println!(rt; "")?;
    Ok(())
}

fn show_record(rt: &HostRuntime, journal: &Journal, k: usize) -> anyhow::Result<()> {
    let place = journal.place(k).context("no place")?;
    let record = Record::decode(&place).context("no record")?;
    print!(rt; ", {} of {}", record.sequence, record.base)?;
    show_lease(rt, &record.lease)
}

fn show_written(rt: &HostRuntime, journal: &Journal, written: Written) -> anyhow::Result<()> {
    let first = written.first;
    let count = written.count;
    print!(rt; "  at {first}, {count}")?;
    for k in first..first.saturating_add(count) {
        show_record(rt, journal, k)?;
    }
    println!(rt; "")?;
    Ok(())
}

// What is found, and what an append then writes.
fn try_image(rt: &HostRuntime, heap: Global, name: &str) -> anyhow::Result<()> {
    let file = format!(in heap; "{name}.txt")?;
    let image = image_of(rt, heap, &file)?;
    let mut table: Vec<Option<Lease>> = vec![in heap; None; ADDRESSES]?;
    let mut journal = Journal::open(Vec::with_capacity(heap, device_places())?, &image)?;
    let found = journal.recover(&mut table);
    show_found(rt, name, found, &table)?;
    let lease = Lease {
        address: 7,
        client: 4242,
        expires: 2000,
    };
    match journal.append(CLOCK, &table, lease) {
        Ok(written) => show_written(rt, &journal, written),
        Err(fault) => {
            println!(rt; "  fault {}", fault.number())?;
            Ok(())
        }
    }
}

fn main(rt: HostRuntime) -> anyhow::Result<()> {
    let heap = rt.alloc();
    let names = fs::read_to_string(&rt, "list.txt")?;
    for name in names.lines() {
        try_image(&rt, heap, name)?;
    }
    Ok(())
}

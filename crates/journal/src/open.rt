ghost use Rattle.std.specs.Prelude.{◌≡◌, ℕ, ◌+◌, ◌*◌, ◌<◌, ◌&&◌, ltb, [], length, if◌then◌else◌, Some, None, vec_len, vec_capacity, IfOk, MatchResult, nat_le, nat_lt, slice_index_or};
ghost use Rattle.std.proofs.Math.Seq.{paste};
ghost use Rattle.journal.specs.declared.state.Found.TheVariants.{New};
ghost use Rattle.journal.specs.Bytes.{place_of};
ghost use Rattle.journal.specs.Device.{Device, Row0, Row1, blank_device, cursor, leases, newer_of};
ghost use Rattle.journal.specs.Image.{Divided, Knows, OpenRefused, ReadRefused, Recovered, Takes, device_of, table_in};
ghost use Rattle.journal.specs.Memory.{HasRead, cursor_of, found_of, places_of};
ghost use Rattle.journal.specs.Promise.{Rereads};
ghost use Rattle.journal.specs.Row.{table_of};
ghost use Rattle.journal.specs.Table.{set};

use crate::journal::Journal;
use crate::record::Record;
use crate::scan::{RowScan, scan_row};
use crate::state::{DEVICE, Found, OpenError, PLACE, PLACES, Place, ROW, Reading, RowState, Side};
use lease::Lease;
use std::alloc::{AllocError, Global};

impl RowState {
    // At least one record, and as many as its first says.
    fn is_whole(self) -> bool
        ensures { result ≡ (nat_le 1 self.count && nat_le self.base self.count) }
    {
        self.count >= 1 && self.count >= usize::from(self.base)
    }
}

// Of the rows that have a record, the one with the higher first sequence number.
fn newer_of(a: RowState, b: RowState) -> Side
    ensures { result ≡ newer_of (nat_le 1 a.count) (nat_le 1 b.count) (nat_lt a.first b.first) }
{
    if a.count == 0 || (b.count >= 1 && b.first > a.first) {
        return Side::Row1;
    }
    Side::Row0
}

// The reading where this row has the table.
fn reading_of(side: Side, a: RowScan, b: RowScan) -> Reading
    ensures { (d : Device) → Knows (d Row0) 4096 a → Knows (d Row1) 4096 b → Takes d side result }
{
    let row = match side {
        Side::Row0 => a.row,
        Side::Row1 => b.row,
    };
    Reading {
        side,
        row,
        highest: a.highest.max(b.highest),
        found: Found::Table,
    }
}

// The newer row if it is whole, else the older if it is whole. Neither: zeros alone are new, anything else is lost, and the next record begins row 0, as if row 1 were in use and full.
fn choose(a: RowScan, b: RowScan) -> Reading
    ensures { (d : Device) → Knows (d Row0) 4096 a → Knows (d Row1) 4096 b → Recovered d result }
{
    let newer = reading_of(newer_of(a.row, b.row), a, b);
    if newer.row.is_whole() {
        return newer;
    }
    let older = reading_of(newer.side.other(), a, b);
    if older.row.is_whole() {
        return older;
    }
    Reading {
        side: Side::Row1,
        row: RowState {
            first: 0,
            base: 0,
            count: ROW,
        },
        found: if a.blank && b.blank {
            Found::New
        } else {
            Found::Lost
        },
        ..older
    }
}

fn read(device: &[Place]) -> Reading
    requires { length device.now ≡ 8192 }
    ensures { Recovered (device_of device.now) result }
{
    let (row0, row1) = device.split_at(ROW);
    choose(scan_row(row0), scan_row(row1))
}

// Sets each lease of a row's records in its place of the table, if it has one there.
fn restore(row: &[Place], table: &mut [Option<Lease>])
    ensures { (a : ℕ) → a < length table.new → slice_index_or table.new a None ≡ table_of (λ k. place_of (slice_index_or row.now k [])) (length row.now) a }
{
    table.fill(None);
    for place in row {
        if let Some(record) = Record::decode(place) {
            put_lease(table, record.lease);
        }
    }
}

// A lease whose address the table does not have is passed over. By index: after a write through a slice's get_mut std says its length alone.
fn put_lease(table: &mut [Option<Lease>], lease: Lease)
    ensures { (a : ℕ) → a < length table.new → slice_index_or table.new a None ≡ set lease (table_in table.old) a }
{
    let at = usize::from(lease.address);
    if at < table.len() {
        table[at] = Some(lease);
    }
}

// How many bytes a device has.
pub fn device_bytes() -> usize
    ensures { result ≡ 229376 }
{
    DEVICE
}

// How many places a device has, 28 bytes each.
pub fn device_places() -> usize
    ensures { result ≡ 8192 }
{
    PLACES
}

// A journal over the places of its device.
fn journal_over(device: Vec<Place>) -> Journal
    requires { vec_len device ≡ 8192 }
    ensures device { result.device.items ≡ device.items }
    ensures journal { HasRead result }
{
    let reading = read(&device);
    Journal { device, reading }
}

impl Journal {
    // A device's bytes, read into room for its places. Nothing is allocated here or later.
    pub fn open(room: Vec<Place>, bytes: &[u8]) -> Result<Journal, OpenError>
        ensures { MatchResult result (λ j. Divided bytes.now j.device.items × HasRead j) (λ e. OpenRefused e (length bytes.now) (vec_capacity room)) }
    {
        if bytes.len() != DEVICE {
            return Err(OpenError::WrongLength);
        }
        if room.capacity() < PLACES {
            return Err(OpenError::NoRoom);
        }
        let mut device = room;
        device.clear();
        let (places, _) = bytes.as_chunks();
        device.extend_from_slice(places).unwrap();
        Ok(journal_over(device))
    }

    // A device's bytes, read into room that is asked for here.
    pub fn read(heap: Global, bytes: &[u8]) -> Result<Journal, OpenError>
        ensures { MatchResult result (λ j. Divided bytes.now j.device.items × HasRead j) (λ e. ReadRefused e (length bytes.now)) }
    {
        if bytes.len() != DEVICE {
            return Err(OpenError::WrongLength);
        }
        let room = Vec::with_capacity(heap, PLACES)?;
        Journal::open(room, bytes)
    }

    // A device of zeros alone.
    pub fn blank(heap: Global) -> Result<Journal, AllocError>
        ensures zeros { IfOk result (λ j. (places_of j ≡ blank_device) × (cursor_of j ≡ cursor 4096 blank_device)) }
        ensures new { IfOk result (λ j. found_of j ≡ New) }
    {
        let device = vec![in heap; [0u8; PLACE]; PLACES]?;
        Ok(journal_over(device))
    }

    // Reads the device anew, as after a crash, and fills the table, which has a place for each address of the pool.
    pub fn recover(&mut self, table: &mut [Option<Lease>]) -> Found
        ensures device { self.new.device.items ≡ self.old.device.items }
        ensures journal { HasRead self.new }
        ensures found { result ≡ found_of self.new }
        ensures table { (a : ℕ) → a < length table.new → slice_index_or table.new a None ≡ leases 4096 (places_of self.new) a }
        ensures ready { Rereads self.new table.new }
    {
        self.reading = read(&self.device);
        let start = self.reading.side.place(0);
        restore(&self.device[start..start + self.reading.count()], table);
        self.reading.found
    }

    // What the last reading found; a table once a lease is written.
    pub fn found(&self) -> Found
        ensures { result ≡ found_of self.now }
    {
        self.reading.found
    }

    // The bytes of a place, for whoever makes it durable.
    pub fn place(&self, k: usize) -> Option<Place>
        ensures { result ≡ (if ltb k 8192 then Some (slice_index_or self.now.device.items k []) else None) }
    {
        self.device.get(k).copied()
    }

    // Copies a place into its part of an image of the device, if the image has it. By index, as in `put_lease`.
    pub fn store(&self, k: usize, image: &mut [u8]) -> bool
        ensures test { result ≡ (nat_lt k 8192 && nat_le (k * 28 + 28) (length image.old)) }
        ensures image { image.new ≡ (if result then paste image.old (k * 28) (slice_index_or self.now.device.items k []) 28 else image.old) }
    {
        let Some(place) = self.device.get(k) else {
            return false;
        };
        let at = k * PLACE;
        if image.len() < at + PLACE {
            return false;
        }
        image[at..at + PLACE].copy_from_slice(place);
        true
    }
}

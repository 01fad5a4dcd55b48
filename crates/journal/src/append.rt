ghost use Rattle.std.specs.Prelude.{◌≡◌, suc, ◌+◌, ◌^◌, ◌<◌, ◌≤◌, length, IfOk, OnOk};
ghost use Rattle.journal.specs.Append.{in_other, in_row};
ghost use Rattle.journal.specs.Durable.{CutFile};
ghost use Rattle.journal.specs.Image.{table_in};
ghost use Rattle.journal.specs.Memory.{Copied, Room, Tried, Wrote, cursor_of, places_of, turned_to};
ghost use Rattle.journal.specs.Promise.{Gives, Outlives, Stands, planned};
ghost use Rattle.journal.specs.Table.{keeping, kept_of};

use crate::journal::Journal;
use crate::record::Record;
use crate::state::{Found, LIMIT, ROW, Reading, RowState, Written};
use lease::{Fault, Lease};

impl Journal {
    // Writes a lease into the next place of the row in use.
    fn write(&mut self, lease: Lease)
        requires { Room self.old }
        ensures { Wrote self.old self.new lease }
    {
        let Reading {
            side,
            row,
            highest,
            ..
        } = self.reading;
        let sequence = row.first + row.count as u64;
        let record = Record {
            sequence,
            base: row.base,
            lease,
        };
        record.encode(&mut self.device[side.place(row.count)]);
        self.reading = Reading {
            side,
            row: RowState {
                count: row.count + 1,
                ..row
            },
            highest: highest.max(sequence),
            found: Found::Table,
        };
    }

    // Begins the other row: it is the one in use, numbered above all that fits, and has no record yet.
    fn turn(&mut self, base: u16)
        requires { (cursor_of self.old).highest < 2 ^ 63 }
        ensures bytes { self.new.device.items ≡ self.old.device.items }
        ensures cursor { cursor_of self.new ≡ turned_to (cursor_of self.old) base }
    {
        self.reading = Reading {
            side: self.reading.side.other(),
            row: RowState {
                first: self.reading.highest + 1,
                base,
                count: 0,
            },
            ..self.reading
        };
    }

    // Writes the leases of a table that are kept into a row that was just begun.
    fn copy(&mut self, clock: u64, table: &[Option<Lease>])
        requires fresh { (cursor_of self.old).count ≡ 0 }
        requires above { (cursor_of self.old).first ≡ suc (cursor_of self.old).highest }
        requires few { length table.now < 4096 }
        requires early { (cursor_of self.old).first + length (keeping clock (table_in table.now) (length table.now)) < 2 ^ 63 }
        ensures { Copied (cursor_of self.old) self.old.device.items (places_of self.old) (keeping clock (table_in table.now) (length table.now)) self.new.device.items (places_of self.new) (cursor_of self.new) }
    {
        for entry in table {
            if let Some(lease) = kept(clock, *entry) {
                self.write(lease);
            }
        }
    }

    fn append_in_row(&mut self, lease: Lease) -> Result<Written, Fault>
        requires { (cursor_of self.old).count < 4096 }
        ensures { Tried self.old self.new (in_row (cursor_of self.old)) lease result }
    {
        let Reading { side, row, .. } = self.reading;
        if row.first >= LIMIT - row.count as u64 {
            return Err(Fault::CountExhausted);
        }
        self.write(lease);
        Ok(Written {
            first: side.place(row.count),
            count: 1,
        })
    }

    fn append_in_other(
        &mut self,
        clock: u64,
        table: &[Option<Lease>],
        lease: Lease,
    ) -> Result<Written, Fault>
        requires { length table.now < 4096 }
        ensures { Tried self.old self.new (in_other (length table.now) clock (cursor_of self.old) (table_in table.now)) lease result }
    {
        let kept = count_kept(clock, table);
        if self.reading.highest >= LIMIT - 1 - kept as u64 {
            return Err(Fault::CountExhausted);
        }
        self.turn(kept as u16);
        self.copy(clock, table);
        self.write(lease);
        Ok(Written {
            first: self.reading.side.place(0),
            count: kept + 1,
        })
    }

    // Writes a lease, and before it the leases that are kept where a row is begun. Once the places written are durable, each before the next, the lease may be answered.
    pub fn append(
        &mut self,
        clock: u64,
        table: &[Option<Lease>],
        lease: Lease,
    ) -> Result<Written, Fault>
        ensures value { Gives clock table.now self.old self.new lease result }
        ensures stands { OnOk result (Stands clock table.now self.old self.new lease) }
        ensures file { IfOk result (λ w. CutFile self.old self.new (planned self.old clock table.now) lease w) }
        ensures outlives { Outlives clock table.now self.old lease }
    {
        if table.len() >= ROW {
            return Err(Fault::BadSettings);
        }
        if self.reading.row.count < ROW {
            return self.append_in_row(lease);
        }
        self.append_in_other(clock, table, lease)
    }
}

// The lease of a place, if it is live at this clock. Lease::is_live is no plainer here: it takes a Clock, and an append's clock is any number.
fn kept(clock: u64, entry: Option<Lease>) -> Option<Lease>
    ensures { result ≡ kept_of clock entry }
{
    entry.filter(|lease| clock <= lease.expires)
}

// How many leases of a table are kept.
fn count_kept(clock: u64, table: &[Option<Lease>]) -> usize
    ensures value { result ≡ length (keeping clock (table_in table.now) (length table.now)) }
    ensures bound { result ≤ length table.now }
{
    table
        .iter()
        .filter(|entry| kept(clock, **entry).is_some())
        .count()
}

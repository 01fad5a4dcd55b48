ghost use Rattle.std.specs.Prelude.{◌≡◌, ◌<◌, [], length, slice_index_or};
ghost use Rattle.journal.specs.Bytes.{place_of, zeros};
ghost use Rattle.journal.specs.Image.{noted, row_noted, scanned};

use crate::record::Record;
use crate::state::{Place, RowState};

// A row as far as it is read, with the highest sequence number in it, read or not, and whether all of it is zeros.
#[derive(Clone, Copy)]
pub struct RowScan {
    pub(crate) row: RowState,
    pub(crate) highest: u64,
    pub(crate) blank: bool,
}

fn is_zero(place: &[u8]) -> bool
    ensures { result ≡ zeros place.now }
{
    place.iter().all(|byte| *byte == 0)
}

impl RowState {
    // The row with the record of its place `k`: below 4096 here, in `RowScan::noted` and `Side::place`; a type for a row's place would be made and taken apart at each.
    fn noted(self, k: usize, record: Record) -> RowState
        requires { k < 4096 }
        ensures { result ≡ row_noted self k «record» }
    {
        if k == 0 {
            return RowState {
                first: record.sequence,
                base: record.base,
                count: 1,
            };
        }
        if self.count == k && record.sequence.checked_sub(self.first) == Some(k as u64) {
            return RowState {
                count: k + 1,
                ..self
            };
        }
        self
    }
}

impl RowScan {
    // The scan with what stands in its place `k`.
    fn noted(self, k: usize, place: &[u8]) -> RowScan
        requires { k < 4096 }
        ensures { result ≡ noted self k (place_of place.now) }
    {
        match Record::decode(place) {
            Some(record) => RowScan {
                row: self.row.noted(k, record),
                highest: self.highest.max(record.sequence),
                blank: false,
            },
            None => RowScan {
                blank: self.blank && is_zero(place),
                ..self
            },
        }
    }
}

// A row, read in one pass.
pub(crate) fn scan_row(row: &[Place]) -> RowScan
    requires { length row.now ≡ 4096 }
    ensures { result ≡ scanned (λ k. place_of (slice_index_or row.now k [])) 4096 }
{
    let mut scan = RowScan {
        row: RowState {
            first: 0,
            base: 0,
            count: 0,
        },
        highest: 0,
        blank: true,
    };
    for (k, place) in row.iter().enumerate() {
        scan = scan.noted(k, place);
    }
    scan
}

ghost use Rattle.std.specs.Prelude.{◌≡◌, ◌<◌};
ghost use Rattle.journal.specs.declared.state.OpenError.TheVariants.{NoRoom};
ghost use Rattle.journal.specs.Device.{other};
ghost use Rattle.journal.specs.Image.{count_of, index};

use std::alloc::AllocError;
use std::error::Error;
use std::fmt;

// The bytes of a place.
pub(crate) const PLACE: usize = 28;

// The places of a row: more than the largest pool has addresses, so that a row begun with all their leases has room for the next.
pub(crate) const ROW: usize = 4096;

// The places of the device, in two rows.
pub(crate) const PLACES: usize = 8192;

// The bytes of the device.
pub(crate) const DEVICE: usize = 229_376;

// Sequence numbers stay below this, so that a few can always be added.
pub(crate) const LIMIT: u64 = 1 << 63;

// A place as it stands on the device.
pub(crate) type Place = [u8; PLACE];

// One of the two rows.
#[derive(Clone, Copy)]
pub enum Side {
    Row0,
    Row1,
}

impl Side {
    pub(crate) fn other(self) -> Side
        ensures { result ≡ other self }
    {
        match self {
            Side::Row0 => Side::Row1,
            Side::Row1 => Side::Row0,
        }
    }

    // The place of the device that is the row's place `k`.
    pub(crate) fn place(self, k: usize) -> usize
        requires { k < 4096 }
        ensures value { result ≡ index self k }
        ensures within { result < 8192 }
    {
        match self {
            Side::Row0 => k,
            Side::Row1 => ROW + k,
        }
    }
}

// What is known of a row: its first sequence number and base, and how many records are read of it. With no record its numbers are 0: an Option would be taken apart at every place of a scan.
#[derive(Clone, Copy)]
pub struct RowState {
    pub(crate) first: u64,
    pub(crate) base: u16,
    pub(crate) count: usize,
}

// What a reading of the device found.
#[derive(Clone, Copy, PartialEq, Eq, Debug)]
pub enum Found {
    // zeros alone: no lease was ever written
    New,
    // neither row is whole
    Lost,
    Table,
}

// What a reading of the device gives: the row behind whose records the next one goes, and the highest sequence number anywhere.
#[derive(Clone, Copy)]
pub struct Reading {
    pub(crate) side: Side,
    pub(crate) row: RowState,
    pub(crate) highest: u64,
    pub(crate) found: Found,
}

impl Reading {
    // How many records make the table.
    pub(crate) fn count(self) -> usize
        ensures { result ≡ count_of self.found self.row.count }
    {
        match self.found {
            Found::Table => self.row.count,
            Found::New | Found::Lost => 0,
        }
    }
}

// The places that an append wrote: so many from the first on, in this order. No Range, which is not Copy.
#[derive(Clone, Copy)]
pub struct Written {
    pub first: usize,
    pub count: usize,
}

// Why a device can't be opened.
#[derive(Clone, Copy, PartialEq, Eq, Debug)]
pub enum OpenError {
    // a device has 229,376 bytes
    WrongLength,
    // there is no room for 8,192 places
    NoRoom,
}

impl fmt::Display for Found {
    fn fmt<W: fmt::Write>(&self, f: &mut fmt::Formatter<W>) -> fmt::Result {
        f.write_str(match self {
            Found::New => "new",
            Found::Lost => "lost",
            Found::Table => "table",
        })
    }
}

impl fmt::Display for OpenError {
    fn fmt<W: fmt::Write>(&self, f: &mut fmt::Formatter<W>) -> fmt::Result {
        f.write_str(match self {
            OpenError::WrongLength => "wrong length",
            OpenError::NoRoom => "no room",
        })
    }
}

impl Error for OpenError {}

impl From<AllocError> for OpenError {
    ghost from_gives = { λ _ e. e ≡ NoRoom };

    fn from(_: AllocError) -> OpenError {
        OpenError::NoRoom
    }
}

#![tactic(auto)]

// A lease table that survives crashes: records on a device of two rows, and what is recovered from them.
mod append;
mod codec;
mod journal;
mod laws;
mod open;
mod record;
mod scan;
mod state;

pub use journal::Journal;
pub use laws::{
    all_survive, answered_stays, append_stands, append_survives, choice_tells, last_is_cut,
    none_appears, none_twice, row_is_read, switches,
};
pub use open::{device_bytes, device_places};
pub use record::Record;
pub use state::{Found, OpenError, Side, Written};

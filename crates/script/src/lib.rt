#![tactic(auto)]

// The bytes of a script as entries: who hears a message, and the message.
mod entry;
mod laws;
mod reading;

pub use entry::{Entry, Unread};
pub use laws::{never_both, one_fault, one_reading};
pub use reading::read;

#![tactic(auto)]

// The lines of a report as text.
mod printer;

pub use printer::{Printer, is_two};

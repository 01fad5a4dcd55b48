#![tactic(auto)]

// A server, its device and clients as one system over the bytes that they hear: what a run of it is reported to be, and what holds of every run.
mod laws;
mod line;

pub use laws::{can_have, clocks_agree, keeps, names_no_two, never_two};
pub use line::{Line, Party, Premise};

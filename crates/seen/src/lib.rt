#![tactic(auto)]

// A set of stamps that is asked by the million.
mod laws;
mod seen;
mod stamp;
mod stamps;

pub use laws::members_are_in;
pub use seen::Seen;
pub use stamp::Stamp;

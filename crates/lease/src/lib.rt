#![tactic(auto)]

// The lending core: settings, leases, the lease table and what a client holds.
mod clock;
mod fault;
mod found;
mod holder;
mod holding;
mod keeper;
mod lease;
mod message;
mod settings;
mod table;
mod theorems;

pub use clock::Clock;
pub use fault::Fault;
pub use found::Found;
pub use holder::Holder;
pub use holding::{Holding, Use, Wait};
pub use keeper::Keeper;
pub use lease::Lease;
pub use message::{Grant, Request};
pub use settings::{Settings, most_addresses};
pub use table::Table;
pub use theorems::{
    can_have, cases_hold, closely_is_enough, implements, in_table, keeps, little_drift, never_two,
    one_lease_each, witnesses,
};

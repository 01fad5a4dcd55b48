#![tactic(auto)]

// A client: all of it but its input and output.
mod asking;
mod client;
mod laws;
mod state;

pub use client::Client;
pub use laws::{always_told, asks_again, requests_apart, used_once};

#![tactic(auto)]

// A server, clients, their clocks and a network in one process: the very code of the parties, played event by event.
mod event;
mod network;
mod simulation;
mod time;

pub use event::{Event, Interrupted, Sent, Stop};
pub use simulation::Simulation;

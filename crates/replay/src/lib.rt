#![tactic(auto)]

// A server, its device and 64 clients in one process, over the bytes that a script brings them: the very code of the programs, watched and reported.
mod heard;
mod hearing;
mod hearing_steps;
mod lead;
mod parties;
mod parties_steps;
mod player;
mod run;
mod simulation;
mod watch;
mod watch_steps;

pub use player::{Stopped, play};
pub use simulation::{Simulation, Unheard};
pub use watch_steps::Moment;

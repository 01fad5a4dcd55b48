#![tactic(auto)]

// A server: what it makes of each message that it hears, and what is to be made durable and sent then, in order.
mod effect;
mod laws;
mod lender;
mod lending;
mod server;

pub use effect::Effect;
pub use laws::{
    cuts_refine, events_of_runs, runs_go_on, settling_stands, steps_orderly, steps_refine,
};
pub use server::Server;

#![tactic(auto)]

// When a client asks for an address or renews the one it uses, and what holds of its requests over a whole run.
mod pacing;
mod schedule;

pub use pacing::{
    asks_in_time, bounds_reached, due_at_once, four_apart, halfway, kth_pause, pauses_end,
    sixty_apart, timetable,
};
pub use schedule::{Pause, Schedule};

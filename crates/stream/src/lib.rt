#![tactic(auto)]

// A stream of messages that comes in chunks: whatever the chunks, the messages handed on are those of the whole stream.
mod hearer;
mod inbox;
mod laws;
mod outbox;
mod speaker;

pub use hearer::{Hearer, Stop};
pub use inbox::Inbox;
pub use laws::chunks_deliver;
pub use outbox::Outbox;
pub use speaker::{Halt, Speaker, serve};

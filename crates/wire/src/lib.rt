#![tactic(auto)]

// Messages in bytes: what a message's bytes say to the one who reads them, and which bytes say a message.
mod decode;
mod encode;
mod kind;
mod message;
mod numbers;
mod reader;
mod stream;

pub use decode::{fault_numbered, read};
pub use encode::most_bytes;
pub use lease::Fault;
pub use message::Message;
pub use reader::Reader;
pub use stream::{Next, next_message};

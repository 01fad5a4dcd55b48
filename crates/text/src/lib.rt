#![tactic(auto)]

// Scripts and streams of messages as text for people, one line an entry.
mod decimal;
mod entry;
mod fault;
mod field;
mod form;
mod hex;
mod kind;
mod laws;
mod line;
mod piece;
mod reading;
mod report;
mod sentence;
mod speech;
mod told;
mod writing;

pub use fault::{Breach, Expected, Mistake, ReadFault, WriteFault};
pub use field::Field;
pub use form::Form;
pub use laws::{every_script, reads_back};
pub use reading::read_text;
pub use report::{Report, word_of};
pub use writing::write_text;

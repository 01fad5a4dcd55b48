ghost use Rattle.seen.specs.Stamp.{HasMembers};

use crate::stamp::Stamp;
use std::collections::HashSet;

// Stamps that came. Contracts speak of the list, and the program asks the members alone: a ghost field can state a fact, but can't keep a list.
#[derive(Drop)]
pub struct Seen {
    // each as often as it came, in their order
    pub(crate) stamps: Vec<Stamp>,
    // each once, to be asked
    pub(crate) members: HashSet<Stamp>,
    ghost same: { HasMembers stamps.items members },
}

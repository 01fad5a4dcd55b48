ghost use Rattle.std.specs.Prelude.{◌≡◌, true, [], ◌∷◌, is_ok, if◌then◌else◌};
ghost use Rattle.seen.specs.Stamp.{member};
ghost use Rattle.seen.specs.Seen.{Roomy, stamps_of};

use crate::seen::Seen;
use crate::stamp::Stamp;
use std::alloc::{AllocError, Global};
use std::collections::HashSet;

impl Seen {
    // A set with no stamp in it.
    pub fn new(heap: Global) -> Seen
        ensures { stamps_of result ≡ [] }
    {
        Seen {
            stamps: Vec::new(heap),
            members: HashSet::new(heap),
        }
    }

    // Whether the stamp came.
    pub fn contains(&self, stamp: Stamp) -> bool
        ensures { result ≡ member stamp (stamps_of self.now) }
    {
        self.members.contains(&stamp)
    }

    // Room for one more stamp, so that the next insertion succeeds.
    pub fn reserve(&mut self) -> Result<(), AllocError>
        ensures same { stamps_of self.new ≡ stamps_of self.old }
        ensures ok { is_ok result ≡ true → Roomy self.new }
        ensures succeeds { Roomy self.old → is_ok result ≡ true }
    {
        self.stamps.reserve(1)?;
        self.members.reserve(1)
    }

    // The stamp is the newest. Where there is no memory for it nothing changes.
    pub fn insert(&mut self, stamp: Stamp) -> Result<(), AllocError>
        ensures stamps { stamps_of self.new ≡ (if is_ok result then stamp ∷ stamps_of self.old else stamps_of self.old) }
        ensures succeeds { Roomy self.old → is_ok result ≡ true }
    {
        self.stamps.reserve(1)?;
        self.members.insert(stamp)?;
        self.stamps.push_reserved(stamp);
        Ok(())
    }
}

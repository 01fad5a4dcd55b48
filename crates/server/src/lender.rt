ghost use Rattle.std.specs.Prelude.{◌≡◌, vec_len};

use lease::{Keeper, Lease};

// What a server that knows its settings lends by, with room for a table that is read: a restart asks for no memory.
#[derive(Drop)]
pub struct Lender {
    pub(crate) keeper: Keeper,
    pub(crate) places: Vec<Option<Lease>>,
    ghost sized: { vec_len places ≡ keeper.settings.addresses },
}

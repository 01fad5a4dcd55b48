ghost use Rattle.std.specs.Prelude.{◌≡◌, vec_len};

use crate::state::{Place, Reading};

// The device in memory, and where the next record goes.
#[derive(Drop)]
pub struct Journal {
    pub(crate) device: Vec<Place>,
    pub(crate) reading: Reading,
    ghost sized: { vec_len device ≡ 8192 },
}

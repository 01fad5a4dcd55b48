ghost use Rattle.std.specs.Prelude.{◌≡◌, vec_len};

use client::Client;
use server::Server;

// How many places for clients there are: 64, and the one at 0, to which nothing comes.
pub(crate) const PLACES: usize = 65;

#[derive(Drop)]
pub struct Parties {
    pub(crate) server: Server,
    pub(crate) clients: Vec<Client>,
    ghost sized: { vec_len clients ≡ 65 },
}

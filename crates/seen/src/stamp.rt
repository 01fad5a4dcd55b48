// What names a grant: the client, its request's nonce and the address.
#[derive(Clone, Copy, Debug, PartialEq, Eq, Hash)]
pub struct Stamp {
    pub client: u32,
    // before the nonce, so that a stamp takes 16 bytes: fields lie in the order of the source
    pub address: u16,
    pub nonce: u64,
}

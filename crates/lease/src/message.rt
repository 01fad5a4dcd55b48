ghost use Rattle.std.specs.Prelude.{◌≡◌};

// A client asks for an address; the nonce ties the grant to this request. A preferred address outside the pool is none.
#[derive(Clone, Copy, PartialEq, Eq, Debug)]
pub struct Request {
    pub client: u32,
    pub nonce: u64,
    pub preferred: u16,
}

impl Request {
    // The grant of an address to who asked.
    pub(crate) fn granted(self, address: u16) -> Grant
        ensures { result ≡ record { client = self.client; nonce = self.nonce; address = address } }
    {
        Grant {
            client: self.client,
            nonce: self.nonce,
            address,
        }
    }
}

// The server lends an address to the client whose request had this nonce.
#[derive(Clone, Copy, PartialEq, Eq, Debug)]
pub struct Grant {
    pub client: u32,
    pub nonce: u64,
    pub address: u16,
}

// So much is added to how far a client's clock is ahead of the server's, since it can be behind.
const LEVEL: u64 = 1 << 62;

// How far a client's clock was ahead of the server's, least and most, since the client's start.
#[derive(Clone, Copy)]
pub struct Span {
    least: u64,
    most: u64,
}

// How many ticks a clock may go on by.
#[derive(Clone, Copy)]
pub struct Room {
    pub least: u64,
    pub most: u64,
}

fn lead(client: u64, server: u64) -> u64 {
    client.wrapping_add(LEVEL).wrapping_sub(server)
}

impl Span {
    // From one moment on.
    pub fn at(client: u64, server: u64) -> Span {
        let lead = lead(client, server);
        Span {
            least: lead,
            most: lead,
        }
    }

    pub fn joined(self, other: Span) -> Span {
        Span {
            least: self.least.min(other.least),
            most: self.most.max(other.most),
        }
    }

    // How far a client's clock may go on while the server's comes to `server`.
    pub fn client_room(self, drift: u64, client: u64, server: u64) -> Room {
        let lead = lead(client, server);
        Room {
            least: self.most.saturating_sub(drift).saturating_sub(lead),
            most: self.least.saturating_add(drift).saturating_sub(lead),
        }
    }

    // How far the server's clock may go on alone.
    pub fn server_room(self, drift: u64, client: u64, server: u64) -> u64 {
        lead(client, server)
            .saturating_add(drift)
            .saturating_sub(self.most)
    }
}

use anyhow::Context;
use journal::{Journal, Written, device_places};
use server::{Effect, Server};
use std::alloc::Global;

// A server, and the file of its device, by places: what of it is durable.
#[derive(Drop)]
pub struct Stage {
    file: Vec<[u8; 28]>,
    server: Server,
    out: Vec<Effect>,
}

// The server makes these places durable, one after the other.
fn persist(file: &mut [[u8; 28]], server: &Server, written: Written) -> anyhow::Result<()> {
    let Written { first, count } = written;
    let end = first.checked_add(count).context("no such places")?;
    for k in first..end {
        let bytes = server.place(k).context("no such place")?;
        *file.get_mut(k).context("no such place")? = bytes;
    }
    Ok(())
}

impl Stage {
    pub fn new(heap: Global) -> anyhow::Result<Stage> {
        Ok(Stage {
            file: vec![in heap; [0; 28]; device_places()]?,
            server: Server::new(heap, Journal::blank(heap)?),
            out: Vec::new(heap),
        })
    }

    // The program ends and begins anew.
    pub fn reopen(&mut self, heap: Global) -> anyhow::Result<()> {
        let journal = Journal::read(heap, self.file.as_flattened())?;
        self.server = Server::new(heap, journal);
        Ok(())
    }

    // A byte of a place of the file is another one.
    pub fn damage(&mut self, place: usize) -> anyhow::Result<()> {
        self.file.get_mut(place).context("no such place")?[0] ^= 1;
        Ok(())
    }

    // A message comes, and what it makes durable is so.
    pub fn hear(&mut self, bytes: &[u8]) -> anyhow::Result<()> {
        self.out.clear();
        self.server.hear(bytes, &mut self.out)?;
        for effect in &self.out {
            if let Effect::Persist(written) = *effect {
                persist(&mut self.file, &self.server, written)?;
            }
        }
        Ok(())
    }

    // What the last message made it do.
    pub fn effects(&self) -> &[Effect] {
        &self.out
    }
}

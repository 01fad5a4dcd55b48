use anyhow::Context;
use journal::Journal;
use lease::Request;
use server::{Effect, Server};
use std::alloc::Global;
use wire::Message;

const ADDRESSES: u16 = 1024;

const LONG_TERM: u32 = 86_400;

const SHORT_TERM: u32 = 60;

const RENEWALS: u32 = 200_000;

const FIRST_REQUESTS: u32 = 102_400;

#[derive(Clone, Copy)]
pub enum Workload {
    // the clients of a full pool renew, in no order
    Renewals,
    // a new client each, in a pool whose leases have expired each time that it is full
    FirstRequests,
}

impl Workload {
    fn term(self) -> u32 {
        match self {
            Workload::Renewals => LONG_TERM,
            Workload::FirstRequests => SHORT_TERM,
        }
    }
}

// A server, with room for what it answers.
#[derive(Drop)]
pub struct Bench {
    server: Server,
    effects: Vec<Effect>,
    message: Vec<u8>,
    out: Vec<u8>,
    workload: Workload,
    sum: u32,
}

impl Bench {
    pub fn new(heap: Global, workload: Workload) -> anyhow::Result<Bench> {
        let mut bench = Bench {
            server: Server::new(heap, Journal::blank(heap)?),
            effects: Vec::new(heap),
            message: Vec::new(heap),
            out: Vec::new(heap),
            workload,
            sum: 0,
        };
        bench.hear(Message::Settings {
            addresses: ADDRESSES,
            term: workload.term(),
            skew: 0,
        })?;
        Ok(bench)
    }

    pub fn sum(&self) -> u32 {
        self.sum
    }

    // The message goes in as bytes, and what is sent comes out as bytes.
    fn hear(&mut self, message: Message) -> anyhow::Result<()> {
        self.message.clear();
        message.encode(&mut self.message)?;
        let bytes = self.message.get(1..).context("no message")?;
        self.server.hear(bytes, &mut self.effects)?;
        for effect in &self.effects {
            match *effect {
                Effect::Persist(written) => {
                    self.sum = self.sum.wrapping_add((written.first & 0xffff) as u32)
                }
                Effect::Send(sent) => sent.encode(&mut self.out)?,
            }
        }
        let last = self.out.last().copied().unwrap_or(0);
        self.sum = self.sum.wrapping_mul(31).wrapping_add(u32::from(last));
        self.effects.clear();
        self.out.clear();
        Ok(())
    }

    fn request(&mut self, client: u32) -> anyhow::Result<()> {
        self.hear(Message::Request(Request {
            client,
            nonce: u64::from(client),
            preferred: ADDRESSES,
        }))
    }

    fn renew(&mut self) -> anyhow::Result<()> {
        for client in 0..u32::from(ADDRESSES) {
            self.request(client)?;
        }
        // The numbers that the twin in plain Rust draws too.
        let mut random: u32 = 1;
        for _ in 0..RENEWALS {
            random = random.wrapping_mul(1_664_525).wrapping_add(1_013_904_223);
            self.request(random >> 22)?;
        }
        Ok(())
    }

    fn lend_anew(&mut self) -> anyhow::Result<()> {
        for client in 0..FIRST_REQUESTS {
            if client % u32::from(ADDRESSES) == 0 {
                for _ in 0..=SHORT_TERM {
                    self.hear(Message::Tick)?;
                }
            }
            self.request(client)?;
        }
        Ok(())
    }

    // A workload is a value and no closure, since it gives the term too.
    pub fn play(&mut self) -> anyhow::Result<()> {
        match self.workload {
            Workload::Renewals => self.renew(),
            Workload::FirstRequests => self.lend_anew(),
        }
    }
}

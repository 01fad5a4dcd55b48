use crate::span::Span;
use client::Client;
use journal::Journal;
use server::{Effect, Server};
use std::alloc::{AllocError, Global};
use system::Party;
use wire::Message;

// A client, and how far its clock was ahead of the server's while both were up.
#[derive(Drop)]
struct Member {
    client: Client,
    span: Option<Span>,
}

// A server with a device of zeros and clients, and what one of them said last.
#[derive(Drop)]
pub struct Parties {
    server: Server,
    // by their places, from 1 on
    members: Vec<Member>,
    effects: Vec<Effect>,
    said: Vec<Message>,
}

// The place of a party in a script: the server's is 0.
pub fn place_of(party: Party) -> u8 {
    match party {
        Party::Server => 0,
        Party::Client(place) => place,
    }
}

pub fn party_at(place: u8) -> Party {
    if place == 0 {
        Party::Server
    } else {
        Party::Client(place)
    }
}

// A client's place among the members.
fn index_of(place: u8) -> Option<usize> {
    usize::from(place).checked_sub(1)
}

impl Member {
    // The client's clock, while it is up and has a number.
    fn running_clock(&self) -> Option<u64> {
        let runs = self.client.is_up() && self.client.own().is_some();
        runs.then(|| self.client.clock().ticks())
    }

    // How far the server's clock may go on alone, as far as this client is concerned.
    fn server_room(&self, drift: u64, server: u64) -> Option<u64> {
        let clock = self.running_clock()?;
        let span = self.span?;
        Some(span.server_room(drift, clock, server))
    }

    fn judge(&mut self, server: u64) {
        if let Some(clock) = self.running_clock() {
            let now = Span::at(clock, server);
            self.span = Some(self.span.map_or(now, |span| span.joined(now)));
        }
    }
}

impl Parties {
    pub fn new(heap: Global, clients: u8) -> Result<Parties, AllocError> {
        let mut members = Vec::new(heap);
        for _ in 0..clients {
            members.push(Member {
                client: Client::new(heap),
                span: None,
            })?;
        }
        Ok(Parties {
            server: Server::new(heap, Journal::blank(heap)?),
            members,
            effects: Vec::new(heap),
            said: Vec::new(heap),
        })
    }

    fn member(&self, place: u8) -> Option<&Member> {
        self.members.get(index_of(place)?)
    }

    fn member_mut(&mut self, place: u8) -> Option<&mut Member> {
        self.members.get_mut(index_of(place)?)
    }

    // A message's bytes come to a party.
    pub fn hear(&mut self, party: Party, bytes: &[u8]) -> Result<(), AllocError> {
        self.said.clear();
        match party {
            Party::Server => self.server_hears(bytes),
            Party::Client(place) => self.client_hears(place, bytes),
        }
    }

    fn server_hears(&mut self, bytes: &[u8]) -> Result<(), AllocError> {
        self.effects.clear();
        self.server.hear(bytes, &mut self.effects)?;
        for effect in &self.effects {
            if let Effect::Send(message) = effect {
                self.said.push(*message)?;
            }
        }
        Ok(())
    }

    fn client_hears(&mut self, place: u8, bytes: &[u8]) -> Result<(), AllocError> {
        let Some(i) = index_of(place) else {
            return Ok(());
        };
        if let Some(member) = self.members.get_mut(i) {
            member.client.hear(bytes, &mut self.said)?;
        }
        Ok(())
    }

    // What the party said last.
    pub fn said(&self) -> &[Message] {
        &self.said
    }

    pub fn server_clock(&self) -> u64 {
        self.server.clock().ticks()
    }

    pub fn is_server_up(&self) -> bool {
        self.server.is_up()
    }

    // The clock of a client that is up and has a number.
    pub fn running_clock(&self, place: u8) -> Option<u64> {
        self.member(place)?.running_clock()
    }

    pub fn client_clock(&self, place: u8) -> u64 {
        self.member(place)
            .map_or(0, |member| member.client.clock().ticks())
    }

    pub fn is_client_up(&self, place: u8) -> bool {
        self.member(place)
            .is_some_and(|member| member.client.is_up())
    }

    // Notes how far the clocks are apart, where the server is up.
    pub fn judge(&mut self) {
        if !self.is_server_up() {
            return;
        }
        let server = self.server_clock();
        for member in &mut self.members {
            member.judge(server);
        }
    }

    pub fn span(&self, place: u8) -> Option<Span> {
        self.member(place)?.span
    }

    // A client begins anew.
    pub fn forget_span(&mut self, place: u8) {
        if let Some(member) = self.member_mut(place) {
            member.span = None;
        }
    }

    // How far the server's clock may go on alone, and at most so far.
    pub fn server_room(&self, drift: u64, most: u64) -> u64 {
        let server = self.server_clock();
        self.members
            .iter()
            .filter_map(|member| member.server_room(drift, server))
            .fold(most, |room, next| room.min(next))
    }
}

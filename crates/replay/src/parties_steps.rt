ghost use Rattle.std.specs.Prelude.{◌≡◌, ℕ, ◌<◌, List, ◌++◌, IfSome, IfOk, vec_len, OnOk};
ghost use Rattle.std.specs.Option.{option_map, option_to_list};
ghost use Rattle.lease.specs.Choosing.{lowest};
ghost use Rattle.lease.specs.Of.{settings_of};
ghost use Rattle.client.specs.Client.{fresh};
ghost use Rattle.client.specs.Of.{client_of};
ghost use Rattle.client.specs.State.{in_use};
ghost use Rattle.system.specs.Parties.{ToClient, ToServer, happens, sends, start};
ghost use Rattle.system.specs.Watch.{any_below, clash as clashing, knows, same_number, shares_number};
ghost use Rattle.system.specs.Report.{pair_of, rival as rivals, sharing, user_lines, uses_it};
ghost use Rattle.replay.specs.Hearing.{event_in};
ghost use Rattle.replay.specs.Parties.{clients_of, parties_of, shown_by};

use crate::hearing::Hearing;
use crate::parties::{PLACES, Parties};
use client::Client;
use journal::Journal;
use lease::{Clock, Settings};
use server::{Effect, Server};
use std::alloc::{AllocError, Global};
use system::{Line, Party};
use wire::Message;

fn new_clients(heap: Global) -> Result<Vec<Client>, AllocError>
    ensures { IfOk result (λ cs. (vec_len cs ≡ 65) × (clients_of cs.items ≡ (λ i. fresh))) }
{
    let mut clients = Vec::new(heap);
    for _ in 0..PLACES {
        clients.push(Client::new(heap))?;
    }
    Ok(clients)
}

// Appends the messages among effects.
fn put_sent(effects: &[Effect], said: &mut Vec<Message>) -> Result<(), AllocError>
    ensures { OnOk result (said.new.items ≡ said.old.items ++ sends effects.now) }
{
    for effect in effects {
        if let Effect::Send(message) = effect {
            said.push(*message)?;
        }
    }
    Ok(())
}

// Two clients have one number.
fn same_number(one: Option<u32>, other: Option<u32>) -> bool
    ensures { result ≡ same_number one other }
{
    one.is_some() && one == other
}

// The clock that a client shows: it is up and has a number.
pub(crate) fn shown_clock(client: &Client) -> Option<Clock>
    ensures { option_map (λ c. c.ticks) result ≡ shown_by (client_of client.now) }
{
    (client.is_up() && client.own().is_some()).then_some(client.clock())
}

fn uses(client: &Client, address: u16) -> bool
    ensures { result ≡ uses_it address (in_use (client_of client.now).state) }
{
    client
        .in_use()
        .is_some_and(|using| using.address == address)
}

impl Parties {
    // All are new, and the device is zeros alone.
    pub(crate) fn new(heap: Global) -> Result<Parties, AllocError>
        ensures { IfOk result (λ p. parties_of p ≡ start) }
    {
        let journal = Journal::blank(heap)?;
        let clients = new_clients(heap)?;
        Ok(Parties {
            server: Server::new(heap, journal),
            clients,
        })
    }

    // A place below 65, as in three functions below: what is heard has it in its type, and a type for the number alone would be unwrapped at each index.
    pub(crate) fn client(&self, place: usize) -> &Client
        requires { place < 65 }
        ensures { client_of result.now ≡ clients_of self.now.clients.items place }
    {
        &self.clients[place]
    }

    fn server_hears(
        &mut self,
        bytes: &[u8],
        effects: &mut Vec<Effect>,
        said: &mut Vec<Message>,
    ) -> Result<(), AllocError>
        ensures { OnOk result ((parties_of self.new ≡ (happens (ToServer bytes.now) (parties_of self.old)).parties) × (said.new.items ≡ said.old.items ++ (happens (ToServer bytes.now) (parties_of self.old)).said)) }
    {
        effects.clear();
        self.server.hear(bytes, effects)?;
        put_sent(effects, said)
    }

    fn client_hears(
        &mut self,
        place: usize,
        bytes: &[u8],
        said: &mut Vec<Message>,
    ) -> Result<(), AllocError>
        requires { place < 65 }
        ensures { OnOk result ((parties_of self.new ≡ (happens (ToClient place bytes.now) (parties_of self.old)).parties) × (said.new.items ≡ said.old.items ++ (happens (ToClient place bytes.now) (parties_of self.old)).said)) }
    {
        self.clients[place].hear(bytes, said)
    }

    // Bytes come to a party, and `said` is what it puts out.
    pub(crate) fn hear(
        &mut self,
        hearing: &Hearing<'_>,
        effects: &mut Vec<Effect>,
        said: &mut Vec<Message>,
    ) -> Result<(), AllocError>
        ensures { OnOk result ((parties_of self.new ≡ (happens (event_in hearing.now) (parties_of self.old)).parties) × (said.new.items ≡ (happens (event_in hearing.now) (parties_of self.old)).said)) }
    {
        said.clear();
        match hearing.party {
            Party::Server => self.server_hears(hearing.bytes, effects, said),
            Party::Client(place) => self.client_hears(usize::from(place), hearing.bytes, said),
        }
    }

    // The settings that the party knows.
    pub(crate) fn settings(&self, hearing: &Hearing<'_>) -> Option<Settings>
        ensures { option_map settings_of result ≡ knows (event_in hearing.now) (parties_of self.now) }
    {
        match hearing.party {
            Party::Server => self.server.settings(),
            Party::Client(place) => self.client(usize::from(place)).settings(),
        }
    }

    // Another client has this one's number.
    fn clashes(&self, place: usize) -> bool
        requires { place < 65 }
        ensures { result ≡ any_below (clashing (parties_of self.now) place) 65 }
    {
        let own = self.client(place).own();
        self.clients.iter().enumerate().any(|(other, client)| other != place
            && same_number(own, client.own()))
    }

    pub(crate) fn shares_number(&self, hearing: &Hearing<'_>) -> bool
        ensures { result ≡ shares_number (event_in hearing.now) (parties_of self.now) }
    {
        match hearing.party {
            Party::Server => false,
            Party::Client(place) => self.clashes(usize::from(place)),
        }
    }

    // The lowest other client that uses the address.
    fn rival(&self, place: usize, address: u16) -> Option<usize>
        ensures value { result ≡ lowest (rivals (parties_of self.now) place address) 0 65 }
        ensures below { IfSome result (λ j. j < 65) }
    {
        self.clients
            .iter()
            .enumerate()
            .find(|(other, client)| *other != place && uses(client, address))
            .map(|(other, _)| other)
    }

    // An address that the client uses with another.
    fn shared_by(&self, place: usize) -> Option<Line>
        requires { place < 65 }
        ensures { option_to_list result ≡ pair_of (parties_of self.now) place (in_use (clients_of self.now.clients.items place).state) }
    {
        let using = self.client(place).in_use()?;
        let other = self.rival(place, using.address)?;
        Some(Line::Two {
            address: using.address,
            first: place.min(other) as u8,
            second: place.max(other) as u8,
        })
    }

    // The address that the party uses with another.
    pub(crate) fn shared(&self, hearing: &Hearing<'_>) -> Option<Line>
        ensures { option_to_list result ≡ sharing (event_in hearing.now) (parties_of self.now) }
    {
        match hearing.party {
            Party::Server => None,
            Party::Client(place) => self.shared_by(usize::from(place)),
        }
    }

    // Appends who uses what, by rising place.
    pub(crate) fn put_users(&self, out: &mut Vec<Line>) -> Result<(), AllocError>
        ensures { OnOk result (out.new.items ≡ out.old.items ++ user_lines (parties_of self.now) 0 65) }
    {
        for (place, client) in self.clients.iter().enumerate() {
            if let Some(using) = client.in_use() {
                out.push(Line::User {
                    client: place as u8,
                    address: using.address,
                })?;
            }
        }
        Ok(())
    }
}

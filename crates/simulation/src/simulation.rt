ghost use Rattle.std.specs.Prelude.{◌≡◌, ◌<◌, ◌≤◌, List, IfOk, MatchResult, vec_len, slice_index, slice_index_or};
ghost use Rattle.std.specs.Option.{option_map};
ghost use Rattle.lease.specs.World.{start};
ghost use Rattle.lease.specs.Run as run;
ghost use Rattle.lease.specs.Of.{settings_of, use_of};
ghost use Rattle.lease.specs.Stands.{is_lost};
ghost use Rattle.simulation.specs.Play.{clients_of, world_of, settings_in, wrote, event_of, Stepped, Played};
ghost use Rattle.simulation.specs.declared.event.Stop.TheVariants.{NoSuchClient};

use crate::event::{Event, Interrupted, Sent, Stop};
use crate::network::{message, was_drawn};
use crate::time::{can_pass, pass_all};
use lease::{Clock, Found, Holder, Keeper, Settings, Use};
use std::alloc::{AllocError, Global};

// One server, its clients by their numbers, and all messages that were ever sent.
#[derive(Drop)]
pub struct Simulation {
    keeper: Keeper,
    clients: Vec<Holder>,
    sent: Vec<Sent>,
}

impl Simulation {
    // A server that was never asked, and so many clients that haven't started.
    pub fn new(heap: Global, settings: Settings, clients: u8) -> Result<Simulation, AllocError>
        ensures { IfOk result (λ x. (world_of x ≡ start) × (settings_in x ≡ settings_of settings) × (vec_len x.clients ≡ clients)) }
    {
        let keeper = Keeper::new(heap, settings)?;
        let clients = vec![in heap; Holder::off(); usize::from(clients)]?;
        Ok(Simulation {
            keeper,
            clients,
            sent: Vec::new(heap),
        })
    }

    // The server's clock.
    pub fn clock(&self) -> u64
        ensures { result ≡ (world_of self.now).server.clock }
    {
        self.keeper.clock().ticks()
    }

    // How many clients there are.
    pub fn clients(&self) -> usize
        ensures { result ≡ vec_len self.now.clients }
    {
        self.clients.len()
    }

    // What a client uses.
    pub fn in_use(&self, client: usize) -> Option<Use>
        ensures { option_map use_of result ≡ ((world_of self.now).clients client).holding.uses }
    {
        let holder = self.clients.get(client)?;
        holder.holding().in_use()
    }

    // The client of a number.
    fn client(&self, client: u32) -> Result<Holder, Stop>
        ensures { MatchResult result (λ x. (client < vec_len self.now.clients) × (x ≡ slice_index_or self.now.clients.items client x)) (λ stop. (stop ≡ NoSuchClient) × (vec_len self.now.clients ≤ client)) }
    {
        let holder = self.clients.get(client as usize);
        holder.copied().ok_or(Stop::NoSuchClient)
    }

    fn pass(&mut self, server: u64, ticks: &[u64]) -> Result<(), Stop>
        ensures { Stepped result (run.Pass server (λ c. slice_index ticks.now c)) self.old self.new }
    {
        if !can_pass(&self.clients, ticks) {
            return Err(Stop::CountExhausted);
        }
        self.keeper.pass(server).map_err(|_| Stop::CountExhausted)?;
        pass_all(&mut self.clients, ticks);
        Ok(())
    }

    fn ask(&mut self, client: u32, nonce: u64, preferred: u16) -> Result<(), Stop>
        ensures { Stepped result (run.Asks client nonce preferred) self.old self.new }
    {
        let holder = self.client(client)?;
        if was_drawn(&self.sent, nonce) {
            return Ok(());
        }
        let (after, asked) = holder.ask(client, nonce, preferred);
        if let Some(request) = asked {
            self.sent.push(Sent::Request(request))?;
            self.clients[client as usize] = after;
        }
        Ok(())
    }

    fn server_hears(&mut self, which: usize) -> Result<(), Stop>
        ensures { Stepped result (run.ServerHears which) self.old self.new }
    {
        if let Some(Sent::Request(request)) = message(&self.sent, which) {
            self.sent.reserve(1)?;
            if let Ok(Some(grant)) = self.keeper.request(request) {
                self.sent.push_reserved(Sent::Grant(grant));
            }
        }
        Ok(())
    }

    fn server_hears_and_crashes(
        &mut self,
        which: usize,
        interrupted: Interrupted,
    ) -> Result<(), Stop>
        ensures { Stepped result (run.ServerHearsAndCrashes which (wrote interrupted)) self.old self.new }
    {
        if interrupted == Interrupted::AfterTheLease {
            if let Some(Sent::Request(request)) = message(&self.sent, which) {
                let _unsent = self.keeper.request(request);
            }
        }
        self.keeper.crash();
        Ok(())
    }

    fn client_hears(&mut self, client: u32, which: usize) -> Result<(), Stop>
        ensures { Stepped result (run.ClientHears client which) self.old self.new }
    {
        let holder = self.client(client)?;
        if let Some(Sent::Grant(grant)) = message(&self.sent, which) {
            let term = self.keeper.settings().term();
            if let Ok(after) = holder.hear(term, client, grant) {
                self.clients[client as usize] = after;
            }
        }
        Ok(())
    }

    fn client_starts(&mut self, client: u32, clock: u64) -> Result<(), Stop>
        ensures { Stepped result (run.ClientStarts client clock) self.old self.new }
    {
        self.client(client)?;
        let clock = Clock::try_from(clock).map_err(|_| Stop::CountExhausted)?;
        self.clients[client as usize] = Holder::start(clock);
        Ok(())
    }

    fn client_crashes(&mut self, client: u32) -> Result<(), Stop>
        ensures { Stepped result (run.ClientCrashes client) self.old self.new }
    {
        let holder = self.client(client)?;
        self.clients[client as usize] = holder.crash();
        Ok(())
    }

    fn server_crashes(&mut self) -> Result<(), Stop>
        ensures { Stepped result run.ServerCrashes self.old self.new }
    {
        self.keeper.crash();
        Ok(())
    }

    fn server_restarts(&mut self, clock: u64, found: Found) -> Result<(), Stop>
        ensures { Stepped result (run.ServerRestarts clock (is_lost found)) self.old self.new }
    {
        let clock = Clock::try_from(clock).map_err(|_| Stop::CountExhausted)?;
        self.keeper.restart(clock, found);
        Ok(())
    }

    fn step(&mut self, event: Event<'_>) -> Result<(), Stop>
        ensures { Stepped result (event_of event.entry) self.old self.new }
    {
        match event {
            Event::Pass { server, ticks } => self.pass(server, ticks),
            Event::Ask {
                client,
                nonce,
                preferred,
            } => self.ask(client, nonce, preferred),
            Event::ServerHears { which } => self.server_hears(which),
            Event::ServerHearsAndCrashes { which, interrupted } => self.server_hears_and_crashes(
                which,
                interrupted,
            ),
            Event::ClientHears { client, which } => self.client_hears(client, which),
            Event::ClientStarts { client, clock } => self.client_starts(client, clock),
            Event::ClientCrashes { client } => self.client_crashes(client),
            Event::ServerCrashes => self.server_crashes(),
            Event::ServerRestarts { clock, found } => self.server_restarts(clock, found),
        }
    }

    // Plays events, one after the other, from any moment on. If the clocks agree as they should, no two clients use one address.
    pub fn play(&mut self, events: &[Event<'_>]) -> Result<(), Stop>
        ensures played { (past : List run.Event) → world_of self.old ≡ run.world (settings_in self.old) past → Played result events.now past self.old self.new }
        ensures settings { settings_in self.new ≡ settings_in self.old }
        ensures clients { vec_len self.new.clients ≡ vec_len self.old.clients }
    {
        for event in events {
            self.step(*event)?;
        }
        Ok(())
    }
}

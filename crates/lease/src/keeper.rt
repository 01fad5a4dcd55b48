ghost use Rattle.std.specs.Prelude.{◌≡◌, length};

use crate::clock::Clock;
use crate::fault::Fault;
use crate::found::Found;
use crate::lease::Lease;
use crate::message::{Grant, Request};
use crate::settings::Settings;
use crate::table::Table;
use std::alloc::{AllocError, Global};

// What lends addresses: a clock, the lease table, and the silence after a loss of it. Nothing in it reads or writes outside.
#[derive(Drop)]
pub struct Keeper {
    pub(crate) settings: Settings,
    pub(crate) clock: Clock,
    pub(crate) up: bool,
    // the last tick at which nothing is lent, since the table was lost
    pub(crate) silent: Option<u64>,
    pub(crate) table: Table,
    ghost sized: { length table ≡ settings.addresses },
}

impl Keeper {
    ghost use Rattle.std.specs.Prelude.{◌≡◌, IfOk, IsTrue, IsNone, IsSome, MatchResult};
    ghost use Rattle.lease.specs.declared.fault.Fault.TheVariants.{TableLost};
    ghost use Rattle.lease.specs.Of.{settings_of};
    ghost use Rattle.lease.specs.Settings.{life};
    ghost use Rattle.lease.specs.Table.{table_of, leased, Placed};
    ghost use Rattle.lease.specs.Run.{answer as answered};
    ghost use Rattle.lease.specs.Stands.{server_of, is_lost, KeeperMade, KeeperWrote, KeeperLoaded, KeeperPassed, KeeperAnswered, KeeperCrashed, KeeperRestarted};

    // Up, with an empty table and the clock at 0.
    pub fn new(heap: Global, settings: Settings) -> Result<Keeper, AllocError>
        ensures { IfOk result (λ k. KeeperMade (settings_of settings) k) }
    {
        let table = Table::new(heap, settings)?;
        Ok(Keeper {
            settings,
            clock: Clock::zero(),
            up: true,
            silent: None,
            table,
        })
    }

    pub fn clock(&self) -> Clock
        ensures { result ≡ self.now.clock }
    {
        self.clock
    }

    pub fn settings(&self) -> Settings
        ensures { result ≡ self.now.settings }
    {
        self.settings
    }

    // Time passes, also while it is down; a silence ends only while it is up.
    pub fn pass(&mut self, ticks: u64) -> Result<(), Fault>
        ensures { KeeperPassed result ticks self.old self.new }
    {
        let clock = self.clock.after(ticks)?;
        self.clock = clock;
        if self.up && self.silent.is_some_and(|until| until < clock.ticks) {
            self.silent = None;
            self.table.clear();
        }
        Ok(())
    }

    // Whether a request is heard; in the silence after a loss of the table it is refused.
    fn hears(&self) -> Result<bool, Fault>
        ensures { MatchResult result (λ heard. (heard ≡ self.now.up) × (IsTrue heard → IsNone self.now.silent)) (λ fault. (fault ≡ TableLost) × IsTrue self.now.up × IsSome self.now.silent) }
    {
        if self.up && self.silent.is_some() {
            return Err(Fault::TableLost);
        }
        Ok(self.up)
    }

    // A request comes; a server that is down hears nothing.
    pub fn request(&mut self, request: Request) -> Result<Option<Grant>, Fault>
        ensures { KeeperAnswered request result self.old self.new }
    {
        if !self.hears()? {
            return Ok(None);
        }
        let life = self.settings.life();
        let lease = self.table.grant(self.clock, life, request)?;
        Ok(Some(request.granted(lease.address)))
    }

    // What a request would be answered now.
    pub fn answer(&self, request: Request) -> Result<Option<Grant>, Fault>
        ensures { result ≡ answered (settings_of self.now.settings) (server_of self.now) request }
    {
        if !self.hears()? {
            return Ok(None);
        }
        let chosen = self.table.choose(self.clock, request);
        let address = chosen.ok_or(Fault::NoneFree)?;
        Ok(Some(request.granted(address)))
    }

    // The lease that a grant of now stands for.
    pub fn lease(&self, grant: Grant) -> Lease
        ensures { result ≡ leased self.now.clock.ticks (life (settings_of self.now.settings)) grant.client grant.address }
    {
        let life = self.settings.life();
        Lease::from_now(grant.address, grant.client, self.clock, life)
    }

    // A lease is written.
    pub fn restore(&mut self, lease: Lease)
        ensures { KeeperWrote lease self.old self.new }
    {
        self.table.restore(lease);
    }

    // What stands at each address, in rising order.
    pub fn places(&self) -> &[Option<Lease>]
        ensures value { result.now ≡ self.now.table }
        ensures placed { Placed (table_of self.now.table) }
    {
        self.table.places()
    }

    // The table is loaded from a list of places.
    pub fn load(&mut self, places: &[Option<Lease>])
        ensures { KeeperLoaded places.now self.old self.new }
    {
        self.table.load(places);
    }

    pub fn is_up(&self) -> bool
        ensures { result ≡ self.now.up }
    {
        self.up
    }

    // The last tick of a silence.
    pub fn silent(&self) -> Option<u64>
        ensures { result ≡ self.now.silent }
    {
        self.silent
    }

    // Down: what was written stays.
    pub fn crash(&mut self)
        ensures { KeeperCrashed self.old self.new }
    {
        self.up = false;
    }

    // Up again, with a clock that may show anything. A table that is lost stays so while the silence lasts, and each restart begins it anew.
    pub fn restart(&mut self, clock: Clock, found: Found)
        ensures { KeeperRestarted clock.ticks (is_lost found) self.old self.new }
    {
        self.clock = clock;
        self.up = true;
        if found == Found::Nothing || self.silent.is_some() {
            self.silent = Some(clock.ticks + u64::from(self.settings.silence()));
            self.table.clear();
        }
    }
}

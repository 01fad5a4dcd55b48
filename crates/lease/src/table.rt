ghost use Rattle.std.specs.Prelude.{◌≡◌, ℕ, List, Option, length, ◌<◌, ◌^◌, IfOk, IfSome, if◌then◌else◌, cond, ◌&&◌, Some, None, Ok, vec_len, ◌≢◌, nat_lt};
ghost use Rattle.lease.specs.declared.lease.Lease.{Lease};
ghost use Rattle.lease.specs.Table.{table_of, empty, owned, vacant, free, written, at_home, loaded, OneEach, Placed};
ghost use Rattle.lease.specs.Choosing.{lowest, choose as chosen, Chosen, leasing, entered};

use crate::clock::Clock;
use crate::fault::Fault;
use crate::lease::Lease;
use crate::message::Request;
use crate::settings::Settings;
use std::alloc::{AllocError, Global};
use std::marker::Model;

// Which client each address is lent to: one place an address. An expired lease may stay, it counts for nothing.
#[derive(Drop)]
pub struct Table {
    leases: Vec<Option<Lease>>,
}

// Seen as the list of its places, in which each lease stands at its own address.
impl Model for Table {
    ghost Value = { List (Option Lease) };

    ghost view = { λ t. t.leases.items };

    ghost invariant = { λ t. (vec_len t.leases < 2 ^ 16) × Placed (table_of t.leases.items) };
}

fn is_owned(place: Option<Lease>, clock: Clock, client: u32) -> bool
    ensures { result ≡ owned clock.ticks client place }
{
    place.is_some_and(|lease| lease.client == client && lease.is_live(clock))
}

fn is_vacant(place: Option<Lease>, clock: Clock) -> bool
    ensures { result ≡ vacant clock.ticks place }
{
    place.is_none_or(|lease| !lease.is_live(clock))
}

fn is_free(place: Option<Lease>, clock: Clock, client: u32) -> bool
    ensures { result ≡ free clock.ticks client place }
{
    place.is_none_or(|lease| lease.client == client || !lease.is_live(clock))
}

// The lease that a list of places has at an address.
fn at_home(places: &[Option<Lease>], address: usize) -> Option<Lease>
    ensures { result ≡ at_home address (table_of places.now address) }
{
    places
        .get(address)?
        .filter(|lease| usize::from(lease.address) == address)
}

impl Table {
    // A table with no lease in it.
    pub fn new(heap: Global, settings: Settings) -> Result<Table, AllocError>
        ensures { IfOk result (λ t. (table_of t ≡ empty) × (length t ≡ settings.addresses)) }
    {
        let leases = vec![in heap; None; usize::from(settings.addresses)]?;
        Ok(Table { leases })
    }

    pub fn addresses(&self) -> u16
        ensures { result ≡ length self.now }
    {
        self.leases.len() as u16
    }

    // What stands at an address: nothing outside the pool.
    pub fn lease(&self, address: u16) -> Option<Lease>
        ensures value { result ≡ table_of self.now address }
        ensures placed { IfSome result (λ lease. lease.address ≡ address) }
    {
        *self.leases.get(usize::from(address))?
    }

    // The address of the client's live lease. Not inlined: within a long function its loop has no register left for the client.
    #[inline(never)]
    fn own(&self, clock: Clock, client: u32) -> Option<u16>
        ensures { result ≡ lowest (λ a. owned clock.ticks client (table_of self.now a)) 0 (length self.now) }
    {
        let mut places = self.leases.iter();
        let found = places.position(|place| is_owned(*place, clock, client));
        found.map(|address| address as u16)
    }

    // The preferred address, if it may be had.
    fn preferred(&self, clock: Clock, request: Request) -> Option<u16>
        ensures { result ≡ cond (nat_lt request.preferred (length self.now) && free clock.ticks request.client (table_of self.now request.preferred)) (Some request.preferred) None }
    {
        let place = *self.leases.get(usize::from(request.preferred))?;
        is_free(place, clock, request.client).then_some(request.preferred)
    }

    // The lowest address on which no lease is live.
    fn vacancy(&self, clock: Clock) -> Option<u16>
        ensures { result ≡ lowest (λ a. vacant clock.ticks (table_of self.now a)) 0 (length self.now) }
    {
        let mut found = None;
        // a loop left by its label, one of the named forms (docs/DECISIONS.md)
        'addresses: for (address, place) in self.leases.iter().enumerate() {
            if is_vacant(*place, clock) {
                found = Some(address as u16);
                break 'addresses;
            }
        }
        found
    }

    // The address that a request is granted.
    pub fn choose(&self, clock: Clock, request: Request) -> Option<u16>
        ensures value { result ≡ chosen (length self.now) clock.ticks (table_of self.now) request }
        ensures laws { Chosen (length self.now) clock.ticks (table_of self.now) request result }
    {
        self.own(clock, request.client)
            .or_else(|| self.preferred(clock, request))
            .or_else(|| self.vacancy(clock))
    }

    // A lease is written in the place of its address's; one outside the pool is passed over.
    pub fn restore(&mut self, lease: Lease)
        ensures table { table_of self.new ≡ (if nat_lt lease.address (length self.old) then written lease (table_of self.old) else table_of self.old) }
        ensures addresses { length self.new ≡ length self.old }
    {
        if let Some(place) = self.leases.get_mut(usize::from(lease.address)) {
            *place = Some(lease);
        }
    }

    // The lease that a request is granted is written; refused where no address is free, and then nothing changes.
    pub fn grant(&mut self, clock: Clock, life: u32, request: Request) -> Result<Lease, Fault>
        ensures value { result ≡ leasing clock.ticks life request (chosen (length self.old) clock.ticks (table_of self.old) request) }
        ensures table { table_of self.new ≡ entered result (table_of self.old) }
        ensures addresses { length self.new ≡ length self.old }
        ensures others { (l : Lease) (b : ℕ) → result ≡ Ok l → (b ≢ l.address) → table_of self.new b ≡ table_of self.old b }
        ensures one_each { OneEach clock.ticks (table_of self.old) → OneEach clock.ticks (table_of self.new) }
    {
        let chosen = self.choose(clock, request);
        let address = chosen.ok_or(Fault::NoneFree)?;
        let lease = Lease::from_now(address, request.client, clock, life);
        self.restore(lease);
        Ok(lease)
    }

    // What stands at each address, in rising order.
    pub fn places(&self) -> &[Option<Lease>]
        ensures value { result.now ≡ self.now }
        ensures placed { Placed (table_of self.now) }
    {
        self.leases.as_slice()
    }

    // The table is loaded from a list of places.
    pub fn load(&mut self, places: &[Option<Lease>])
        ensures table { table_of self.new ≡ loaded (length self.old) places.now }
        ensures addresses { length self.new ≡ length self.old }
    {
        for (address, place) in self.leases.iter_mut().enumerate() {
            *place = at_home(places, address);
        }
    }

    // No lease is left.
    pub fn clear(&mut self)
        ensures table { table_of self.new ≡ empty }
        ensures addresses { length self.new ≡ length self.old }
    {
        self.leases.fill(None);
    }
}

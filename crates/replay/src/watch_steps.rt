ghost use Rattle.std.specs.Prelude.{◌≡◌, ℕ, ◌<◌, List, ◌++◌, length, IfOk, OnOk};
ghost use Rattle.std.specs.Option.{option_map, option_to_list};
ghost use Rattle.lease.specs.Of.{settings_of};
ghost use Rattle.wire.specs.Read.{read};
ghost use Rattle.seen.specs.Seen.{stamps_of};
ghost use Rattle.system.specs.Watch.{anew, any_below, any_in, apart, differ as differing, drawn as drawing, leads_after, noted, unsent, unwatched, watched, wide};
ghost use Rattle.replay.specs.Lead.{lead_of};
ghost use Rattle.replay.specs.Hearing.{event_in};
ghost use Rattle.replay.specs.Parties.{clients_of, parties_of, shown_by};
ghost use Rattle.replay.specs.Watch.{is_judged, leads_of, noted_by, said_by, stamp_of_grant, stamp_of_nonce, stamp_of_request, stamps_in, stamps_in_message, watch_of};

use crate::heard::{nonce_in, start_in};
use crate::hearing::Hearing;
use crate::lead::{Lead, is_wide, lead_of, widen};
use crate::parties::{PLACES, Parties};
use crate::parties_steps::shown_clock;
use crate::watch::Watch;
use client::Client;
use lease::{Clock, Grant, Request, Settings};
use seen::{Seen, Stamp};
use std::alloc::{AllocError, Global};
use system::Party;
use wire::Message;

// Whether an event is a moment at which clocks are compared, or a tick that another follows.
#[derive(Clone, Copy, Debug, PartialEq, Eq)]
pub enum Moment {
    Judged,
    WithinTicks,
}

// A From from one crate's type to another's can't stand in a third, so stamps are made by functions. A nonce is a stamp of nobody's: one type of sets serves requests, grants and nonces.
fn of_request(request: Request) -> Stamp
    ensures { result ≡ stamp_of_request request }
{
    Stamp {
        client: request.client,
        nonce: request.nonce,
        address: request.preferred,
    }
}

fn of_grant(grant: Grant) -> Stamp
    ensures { result ≡ stamp_of_grant grant }
{
    Stamp {
        client: grant.client,
        nonce: grant.nonce,
        address: grant.address,
    }
}

fn of_nonce(nonce: u64) -> Stamp
    ensures { result ≡ stamp_of_nonce nonce }
{
    Stamp {
        client: 0,
        nonce,
        address: 0,
    }
}

// What is noted of a message that a party puts out: clients send requests, and the server sends grants.
fn stamp_in(speaker: Party, message: Message) -> Option<Stamp>
    ensures { option_to_list result ≡ stamps_in_message speaker message }
{
    match (speaker, message) {
        (Party::Server, Message::Grant(grant)) => Some(of_grant(grant)),
        (Party::Client(_), Message::Request(request)) => Some(of_request(request)),
        _ => None,
    }
}

fn note_stamp(sent: &mut Seen, stamp: Option<Stamp>) -> Result<(), AllocError>
    ensures { OnOk result (stamps_of sent.new ≡ option_to_list stamp ++ stamps_of sent.old) }
{
    let Some(stamp) = stamp else {
        return Ok(());
    };
    sent.insert(stamp)
}

// Notes what a party puts out, from the last on, so that the first is the newest.
fn note_sent(sent: &mut Seen, speaker: Party, said: &[Message]) -> Result<(), AllocError>
    ensures { OnOk result (stamps_of sent.new ≡ stamps_in speaker said.now ++ stamps_of sent.old) }
{
    for message in said.iter().rev() {
        note_stamp(sent, stamp_in(speaker, *message))?;
    }
    Ok(())
}

// Two parties have different settings.
pub(crate) fn differ(one: Option<Settings>, other: Option<Settings>) -> bool
    ensures { result ≡ differing (option_map settings_of one) (option_map settings_of other) }
{
    one.zip(other).is_some_and(|(one, other)| one != other)
}

// The moment is noted for each client that shows a clock.
fn note_clocks(leads: &mut [Option<Lead>], clients: &[Client], server: Clock)
    requires { length leads.old ≡ length clients.now }
    ensures { (k : ℕ) → k < length clients.now → leads_of leads.new k ≡ noted_by (shown_by (clients_of clients.now k)) server.ticks (leads_of leads.old k) }
{
    // by place: of what is written through iter_mut nothing is known afterwards
    for (place, client) in clients.iter().enumerate() {
        // the place of a client that shows none isn't written: in a long run that is felt
        let Some(clock) = shown_clock(client) else {
            continue;
        };
        leads[place] = Some(widen(leads[place], lead_of(clock, server)));
    }
}

// Some client's clock and the server's went on by amounts that differ by more than the skew.
fn is_any_wide(leads: &[Option<Lead>; PLACES], skew: u16) -> bool
    ensures { result ≡ any_below (λ i. wide skew (leads_of leads.now i)) 65 }
{
    leads.iter().any(|known| is_wide(*known, skew))
}

// A client that restarts or crashes begins anew.
fn begin_anew(leads: &mut [Option<Lead>; PLACES], hearing: &Hearing<'_>, parties: &Parties)
    ensures { leads_of leads.new ≡ anew (event_in hearing.now) (parties_of parties.now) (leads_of leads.old) }
{
    if let Party::Client(place) = hearing.party {
        let place = usize::from(place);
        if start_in(hearing.heard).is_some() || !parties.client(place).is_up() {
            leads[place] = None;
        }
    }
}

// The moment is noted, where the server is up.
fn note_moment(leads: &mut [Option<Lead>; PLACES], parties: &Parties)
    ensures { leads_of leads.new ≡ noted (parties_of parties.now) (leads_of leads.old) }
{
    if parties.server.is_up() {
        note_clocks(leads, &parties.clients, parties.server.clock());
    }
}

fn note_leads(
    leads: &mut [Option<Lead>; PLACES],
    hearing: &Hearing<'_>,
    parties: &Parties,
    moment: Moment,
)
    ensures { leads_of leads.new ≡ leads_after (is_judged moment) (event_in hearing.now) (parties_of parties.now) (leads_of leads.old) }
{
    begin_anew(leads, hearing, parties);
    match moment {
        Moment::Judged => note_moment(leads, parties),
        Moment::WithinTicks => {}
    }
}

impl Watch {
    pub(crate) fn new(heap: Global) -> Result<Watch, AllocError>
        ensures { IfOk result (λ w. watch_of w ≡ unwatched) }
    {
        Ok(Watch {
            requests: Seen::new(heap),
            grants: Seen::new(heap),
            nonces: Seen::new(heap),
            settings: None,
            leads: [None; PLACES],
        })
    }

    // A request to the server, or a grant to a client, that was never sent.
    pub(crate) fn is_unsent(&self, hearing: &Hearing<'_>) -> bool
        ensures { result ≡ unsent (event_in hearing.now) (watch_of self.now) }
    {
        match (hearing.party, hearing.heard) {
            (Party::Server, Some(Message::Request(request))) => {
                !self.requests.contains(of_request(request))
            }
            (Party::Client(_), Some(Message::Grant(grant))) => {
                !self.grants.contains(of_grant(grant))
            }
            _ => false,
        }
    }

    // A nonce that was drawn before.
    pub(crate) fn is_drawn(&self, nonce: Option<u64>) -> bool
        ensures { result ≡ any_in (option_to_list nonce) (watch_of self.now).nonces }
    {
        nonce.is_some_and(|nonce| self.nonces.contains(of_nonce(nonce)))
    }

    pub(crate) fn is_apart(&self) -> bool
        ensures { result ≡ apart (watch_of self.now).settings (watch_of self.now).leads }
    {
        self.settings
            .is_some_and(|settings| is_any_wide(&self.leads, settings.skew()))
    }

    // The requests or the grants that a party puts out are noted.
    fn note_said(&mut self, speaker: Party, said: &[Message]) -> Result<(), AllocError>
        ensures { OnOk result (watch_of self.new ≡ said_by speaker said.now (watch_of self.old)) }
    {
        match speaker {
            Party::Server => note_sent(&mut self.grants, speaker, said),
            Party::Client(_) => note_sent(&mut self.requests, speaker, said),
        }
    }

    // The watch after a message was heard, which left the parties so and made the listener say this.
    pub(crate) fn note(
        &mut self,
        hearing: &Hearing<'_>,
        parties: &Parties,
        said: &[Message],
        moment: Moment,
    ) -> Result<(), AllocError>
        ensures { OnOk result (watch_of self.new ≡ watched (is_judged moment) (event_in hearing.now) (record { parties = parties_of parties.entry.now; said = said.now }) (watch_of self.old)) }
    {
        self.note_said(hearing.party, said)?;
        note_stamp(&mut self.nonces, drawn(hearing).map(of_nonce))?;
        self.settings = self.settings.or(parties.settings(hearing));
        note_leads(&mut self.leads, hearing, parties, moment);
        Ok(())
    }
}

// The nonce that a client is lent.
pub(crate) fn drawn(hearing: &Hearing<'_>) -> Option<u64>
    ensures { option_to_list result ≡ drawing (event_in hearing.now) }
{
    match hearing.party {
        Party::Server => None,
        Party::Client(_) => nonce_in(hearing.heard),
    }
}

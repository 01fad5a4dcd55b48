ghost use Rattle.std.specs.Prelude.{◌≡◌, ◌+◌, ◌≤◌, true, false, [], ◌++◌, is_ok, if◌then◌else◌, Some, None, vec_len, vec_capacity, nat_lt, slice_index_or};
ghost use Rattle.std.specs.Option.{option_map};
ghost use Rattle.lease.specs.Of.{settings_of};
ghost use Rattle.wire.specs.declared.message.Message.TheVariants as message;
ghost use Rattle.server.specs.Of.{state_of};
ghost use Rattle.server.specs.Server.{comes_back, does, fresh, hears, settling, settling_by, understood};
ghost use Rattle.server.specs.Steps.{Comes, ComesOr, HasMemory};
ghost use Rattle.server.specs.Orderly.{FileBy, Orderly};
ghost use Rattle.server.specs.Refines.{StepRefines};
ghost use Rattle.journal.specs.Memory.{cursor_of, places_of};

use crate::effect::{Effect, Failure, Lent};
use crate::lender::Lender;
use journal::Journal;
use lease::{Clock, Fault, Request, Settings};
use std::alloc::{AllocError, Global};
use wire::{Message, Reader};

// So many effects a step has at most: a lease is made durable, and its grant sent.
const MOST_EFFECTS: usize = 2;

// What a server knows: before settings came there is nothing to lend.
#[derive(Drop)]
pub enum Phase {
    Unsettled { clock: Clock, up: bool },
    Settled(Lender),
}

// A server with its device.
#[derive(Drop)]
pub struct Server {
    pub(crate) heap: Global,
    pub(crate) phase: Phase,
    pub(crate) journal: Journal,
}

impl Server {
    // Up, with the clock at 0, knowing nothing.
    pub fn new(heap: Global, journal: Journal) -> Server
        ensures { state_of result ≡ fresh (places_of journal) (cursor_of journal) }
    {
        let phase = Phase::Unsettled {
            clock: Clock::zero(),
            up: true,
        };
        Server {
            heap,
            phase,
            journal,
        }
    }

    // The settings, once they are known.
    pub fn settings(&self) -> Option<Settings>
        ensures { option_map settings_of result ≡ (state_of self.now).settings }
    {
        // Two phases: this match and the next two read one field of either.
        match &self.phase {
            Phase::Unsettled { .. } => None,
            Phase::Settled(lender) => Some(lender.keeper.settings()),
        }
    }

    pub fn clock(&self) -> Clock
        ensures { result.ticks ≡ (state_of self.now).server.clock }
    {
        match &self.phase {
            Phase::Unsettled { clock, .. } => *clock,
            Phase::Settled(lender) => lender.keeper.clock(),
        }
    }

    pub fn is_up(&self) -> bool
        ensures { result ≡ (state_of self.now).server.up }
    {
        match &self.phase {
            Phase::Unsettled { up, .. } => *up,
            Phase::Settled(lender) => lender.keeper.is_up(),
        }
    }

    // The bytes of a place of the device, for whoever makes it durable.
    pub fn place(&self, k: usize) -> Option<[u8; 28]>
        ensures { result ≡ (if nat_lt k 8192 then Some (slice_index_or self.now.journal.device.items k []) else None) }
    {
        self.journal.place(k)
    }

    fn request(&mut self, request: Request) -> Result<Option<Lent>, Fault>
        ensures { Comes self.old.journal (state_of self.old) (does (message.Request request) (state_of self.old)) result self.new.journal (state_of self.new) }
    {
        match &mut self.phase {
            Phase::Unsettled { .. } => Err(Fault::BadSettings),
            Phase::Settled(lender) => lender.request(&mut self.journal, request),
        }
    }

    fn tick(&mut self) -> Result<Option<Lent>, Fault>
        ensures { Comes self.old.journal (state_of self.old) (does message.Tick (state_of self.old)) result self.new.journal (state_of self.new) }
    {
        match &mut self.phase {
            Phase::Unsettled { clock, .. } => *clock = clock.after(1)?,
            Phase::Settled(lender) => lender.keeper.pass(1)?,
        }
        Ok(None)
    }

    fn crash(&mut self) -> Result<Option<Lent>, Fault>
        ensures { Comes self.old.journal (state_of self.old) (does message.Crash (state_of self.old)) result self.new.journal (state_of self.new) }
    {
        match &mut self.phase {
            Phase::Unsettled { up, .. } => *up = false,
            Phase::Settled(lender) => lender.keeper.crash(),
        }
        Ok(None)
    }

    // Up at this time; with settings it reads its device.
    fn come_back(&mut self, now: Clock) -> Result<Option<Lent>, Fault>
        ensures { Comes self.old.journal (state_of self.old) (comes_back (state_of self.old).settings now.ticks (state_of self.old)) result self.new.journal (state_of self.new) }
    {
        match &mut self.phase {
            Phase::Unsettled { clock, up } => {
                *clock = now;
                *up = true;
                Ok(None)
            }
            Phase::Settled(lender) => lender.read(&mut self.journal, now),
        }
    }

    fn restart(&mut self, ticks: u64) -> Result<Option<Lent>, Fault>
        ensures { Comes self.old.journal (state_of self.old) (does (message.Restart ticks) (state_of self.old)) result self.new.journal (state_of self.new) }
    {
        let now = Clock::try_from(ticks)?;
        self.come_back(now)
    }

    // The memory for the pool is got; without it nothing changes.
    fn learn(&mut self, settings: Settings) -> Result<Option<Lent>, Failure>
        ensures { ComesOr self.old.journal (state_of self.old) (does (message.Settings settings.addresses settings.term settings.skew) (state_of self.old)) result self.new.journal (state_of self.new) }
    {
        let Phase::Unsettled { clock, up } = self.phase else {
            return Err(Failure::Refused(Fault::BadSettings));
        };
        self.phase = Phase::Settled(Lender::new(self.heap, settings, clock)?);
        if up {
            return Ok(self.come_back(clock)?);
        }
        Ok(None)
    }

    fn receive(&mut self, message: Message) -> Result<Option<Lent>, Failure>
        ensures step { ComesOr self.old.journal (state_of self.old) (does message (state_of self.old)) result self.new.journal (state_of self.new) }
        ensures memory { settling message ≡ false → HasMemory result }
    {
        match message {
            Message::Settings {
                addresses,
                term,
                skew,
            } => self.learn(Settings::new(addresses, term, skew)?),
            Message::Request(request) => Ok(self.request(request)?),
            Message::Tick => Ok(self.tick()?),
            Message::Crash => Ok(self.crash()?),
            Message::Restart { clock } => Ok(self.restart(clock)?),
            Message::Grant(_)
            | Message::OwnNumber { .. }
            | Message::Nonce { .. }
            | Message::InUse { .. }
            | Message::NoAddress
            | Message::Fault(_) => Err(Failure::Refused(Fault::Malformed)),
        }
    }

    fn answer(&mut self, bytes: &[u8]) -> Result<Option<Lent>, Failure>
        ensures step { ComesOr self.old.journal (state_of self.old) (hears bytes.now (state_of self.old)) result self.new.journal (state_of self.new) }
        ensures memory { settling_by (understood bytes.now (state_of self.old)) ≡ false → HasMemory result }
    {
        let message = Message::decode(Reader::Server, self.settings(), bytes)?;
        self.receive(message)
    }

    // Hears one message's bytes, and appends what is to be made durable and sent then, in order. Without the memory for it nothing changes.
    pub fn hear(&mut self, bytes: &[u8], out: &mut Vec<Effect>) -> Result<(), AllocError>
        ensures state { state_of self.new ≡ (if is_ok result then (hears bytes.now (state_of self.old)).state else state_of self.old) }
        ensures out { out.new.items ≡ (if is_ok result then out.old.items ++ (hears bytes.now (state_of self.old)).effects else out.old.items) }
        ensures succeeds { vec_len out.old + 2 ≤ vec_capacity out.old → settling_by (understood bytes.now (state_of self.old)) ≡ false → is_ok result ≡ true }
        ensures file { is_ok result ≡ true → FileBy (hears bytes.now (state_of self.old)).effects self.old.journal self.new.journal (state_of self.old) }
        ensures orderly { Orderly (state_of self.old) (hears bytes.now (state_of self.old)) }
        ensures refines { StepRefines }
    {
        out.reserve(MOST_EFFECTS)?;
        match self.answer(bytes) {
            Ok(None) => {}
            Ok(Some(lent)) => lent.put(out),
            Err(Failure::Refused(fault)) => out.push_reserved(Effect::Send(Message::Fault(fault))),
            Err(Failure::NoMemory(error)) => return Err(error),
        }
        Ok(())
    }
}

ghost use Rattle.std.specs.Prelude.{◌≡◌, ℕ, [], ◌||◌, List, ◌∷◌, ◌++◌, is_some, IfOk, OnOk, if◌then◌else◌};
ghost use Rattle.std.specs.Option.{option_to_list};
ghost use Rattle.wire.specs.Read.{read as reading};
ghost use Rattle.system.specs.declared.line.Line.TheVariants.{Tick};
ghost use Rattle.system.specs.Watch.{exhausts as exhausting, sets_back};
ghost use Rattle.system.specs.Report.{beginning, fault_lines, tick_lines, user_lines};
ghost use Rattle.replay.specs.Checks.{Foresees, first_broken};
ghost use Rattle.replay.specs.Heard.{Heard};
ghost use Rattle.replay.specs.Of.{run_of};
ghost use Rattle.replay.specs.Hearing.{event_in};
ghost use Rattle.replay.specs.Parties.{parties_of};
ghost use Rattle.replay.specs.Watch.{is_judged, watch_of};

use crate::heard::{is_exhausted, is_tick, start_in};
use crate::hearing::Hearing;
use crate::parties::Parties;
use crate::watch::Watch;
use crate::watch_steps::{Moment, differ, drawn};
use server::Effect;
use std::alloc::{AllocError, Global};
use system::{Line, Party, Premise};
use wire::Message;

// Which premises a message breaks by itself, before it is heard.
#[derive(Clone, Copy)]
struct Foreseen {
    clocks: bool,
    message: bool,
    nonce: bool,
}

// All parties of a run, what is noted of it, and what was reported already.
#[derive(Drop)]
pub struct Run {
    pub(crate) parties: Parties,
    pub(crate) watch: Watch,
    // a premise is broken already
    pub(crate) named: bool,
    // an address was used by two already
    pub(crate) shared: bool,
    // what the server wants done, and what a party says, in one step
    pub(crate) effects: Vec<Effect>,
    pub(crate) said: Vec<Message>,
}

// Somebody put out that a count came to its end.
fn exhausts(said: &[Message]) -> bool
    ensures { result ≡ exhausting said.now }
{
    said.iter().any(|message| is_exhausted(*message))
}

// Appends the faults that were put out.
fn put_faults(listener: Party, said: &[Message], out: &mut Vec<Line>) -> Result<(), AllocError>
    ensures { OnOk result (out.new.items ≡ out.old.items ++ fault_lines listener said.now) }
{
    for message in said {
        if let Message::Fault(fault) = message {
            out.push(Line::Fault(listener, *fault))?;
        }
    }
    Ok(())
}

// Appends a line of a kind that comes once in a run, if none came, and notes that one did.
fn put_first(came: &mut bool, line: Option<Line>, out: &mut Vec<Line>) -> Result<(), AllocError>
    ensures { OnOk result ((came.new ≡ (came.old || is_some line)) × (out.new.items ≡ out.old.items ++ (if came.old then [] else option_to_list line))) }
{
    let Some(line) = line else {
        return Ok(());
    };
    if !*came {
        out.push(line)?;
        *came = true;
    }
    Ok(())
}

impl Run {
    // All are new, and nothing was heard.
    pub(crate) fn new(heap: Global) -> Result<Run, AllocError>
        ensures { IfOk result (λ s. run_of s ≡ beginning) }
    {
        let parties = Parties::new(heap)?;
        let watch = Watch::new(heap)?;
        Ok(Run {
            parties,
            watch,
            named: false,
            shared: false,
            effects: Vec::new(heap),
            said: Vec::new(heap),
        })
    }

    // The server restarts with a clock below the one that it had.
    fn sets_back(&self, hearing: &Hearing<'_>) -> bool
        ensures { result ≡ sets_back (event_in hearing.now) (parties_of self.now.parties) }
    {
        let clock = self.parties.server.clock().ticks();
        match hearing.party {
            Party::Server => start_in(hearing.heard).is_some_and(|start| start < clock),
            Party::Client(_) => false,
        }
    }

    // What a message breaks before it is heard.
    fn foresee(&self, hearing: &Hearing<'_>) -> Foreseen
        ensures { Foresees (event_in hearing.now) (parties_of self.now.parties) (watch_of self.now.watch) result }
    {
        Foreseen {
            clocks: self.sets_back(hearing),
            message: self.watch.is_unsent(hearing),
            nonce: self.watch.is_drawn(drawn(hearing)),
        }
    }

    // The first premise that it has broken then.
    fn broken(&self, hearing: &Hearing<'_>, foreseen: Foreseen) -> Option<Premise>
        ensures { result ≡ first_broken (event_in hearing.now) (parties_of self.now.parties) self.now.said.items (watch_of self.now.watch) foreseen }
    {
        let clocks = foreseen.clocks || self.watch.is_apart();
        let number = self.parties.shares_number(hearing);
        let settings = differ(self.watch.settings, self.parties.settings(hearing));
        let count = exhausts(&self.said);
        clocks
            .then_some(Premise::Clocks)
            .or(foreseen.message.then_some(Premise::Message))
            .or(foreseen.nonce.then_some(Premise::Nonce))
            .or(number.then_some(Premise::Number))
            .or(settings.then_some(Premise::Settings))
            .or(count.then_some(Premise::Count))
    }

    // Appends the server's clock and who uses what.
    fn put_use(&self, out: &mut Vec<Line>) -> Result<(), AllocError>
        ensures { OnOk result (out.new.items ≡ out.old.items ++ (Tick (parties_of self.now.parties).server.server.clock ∷ user_lines (parties_of self.now.parties) 0 65)) }
    {
        out.push(Line::Tick {
            clock: self.parties.server.clock().ticks(),
        })?;
        self.parties.put_users(out)?;
        Ok(())
    }

    // The same after a tick of the server that was taken.
    fn report_tick(&self, hearing: &Hearing<'_>, out: &mut Vec<Line>) -> Result<(), AllocError>
        ensures { OnOk result (out.new.items ≡ out.old.items ++ tick_lines (event_in hearing.now) (record { parties = parties_of self.now.parties; said = self.now.said.items })) }
    {
        if hearing.party == Party::Server && is_tick(hearing.heard) && self.said.is_empty() {
            self.put_use(out)?;
        }
        Ok(())
    }

    // A message comes to a party, and what is reported of that is appended.
    pub(crate) fn step(
        &mut self,
        hearing: &Hearing<'_>,
        moment: Moment,
        out: &mut Vec<Line>,
    ) -> Result<(), AllocError>
        ensures { OnOk result (Heard (is_judged moment) (event_in hearing.now) (run_of self.old) (run_of self.new) out.old.items out.new.items) }
    {
        let foreseen = self.foresee(hearing);
        self.parties
            .hear(hearing, &mut self.effects, &mut self.said)?;
        self.watch.note(hearing, &self.parties, &self.said, moment)?;
        let broken = self.broken(hearing, foreseen).map(Line::Broken);
        put_faults(hearing.party, &self.said, out)?;
        put_first(&mut self.named, broken, out)?;
        put_first(&mut self.shared, self.parties.shared(hearing), out)?;
        self.report_tick(hearing, out)?;
        Ok(())
    }
}

ghost use Rattle.std.specs.Prelude.{◌≡◌, ◌++◌, Some, MatchResult};
ghost use Rattle.script.specs.Script.{part_of};
ghost use Rattle.system.specs.Promise.{NamesNoTwo};
ghost use Rattle.system.specs.Report.{judged, played, ticks_next};
ghost use Rattle.replay.specs.declared.player.Stopped.TheVariants.{NoMemory};
ghost use Rattle.replay.specs.Of.{play_of};
ghost use Rattle.replay.specs.Played.{Begun, Ended, event_of_part, events_in, stopped_by};
ghost use Rattle.replay.specs.Watch.{is_judged};
ghost use Rattle.replay.specs.Words.{stopped_words};

use crate::heard::is_tick;
use crate::simulation::{Simulation, Unheard};
use crate::watch_steps::Moment;
use script::{Entry, Unread};
use std::alloc::{AllocError, Global};
use std::error::Error;
use std::fmt;
use system::Line;
use wire::read;

// Why a script is not played to its end.
#[derive(Clone, Copy, Debug, PartialEq, Eq)]
pub enum Stopped {
    // it can't be read: the bad entry begins there
    Script { at: usize },
    NoMemory,
}

impl From<Unread> for Stopped {
    ghost from_gives = { λ u s. s ≡ stopped_by u };

    fn from(unread: Unread) -> Stopped {
        match unread {
            Unread::Fault { at } => Stopped::Script { at },
            Unread::NoMemory => Stopped::NoMemory,
        }
    }
}

impl From<AllocError> for Stopped {
    ghost from_gives = { λ _ s. s ≡ NoMemory };

    fn from(_: AllocError) -> Stopped {
        Stopped::NoMemory
    }
}

impl fmt::Display for Stopped {
    ghost output = { λ stopped. Some (stopped_words stopped) };

    fn fmt<W: fmt::Write>(&self, f: &mut fmt::Formatter<W>) -> fmt::Result {
        match self {
            Stopped::Script { at } => write!(f, "script: fault 1 at byte {at}"),
            Stopped::NoMemory => write!(f, "out of memory"),
        }
    }
}

impl Error for Stopped {}

fn begins_with_tick(entries: &[Entry<'_>]) -> bool
    ensures { result ≡ ticks_next (events_in entries.now) }
{
    match entries {
        [entry, ..] => is_tick(read(entry.message)),
        [] => false,
    }
}

// A tick that is followed by a tick is no moment to be judged.
fn moment_of(entry: &Entry<'_>, after: &[Entry<'_>]) -> Moment
    ensures { is_judged result ≡ judged (event_of_part (part_of entry.now)) (events_in after.now) }
{
    if is_tick(read(entry.message)) && begins_with_tick(after) {
        return Moment::WithinTicks;
    }
    Moment::Judged
}

// Plays entries one after the other.
fn play_all(
    simulation: &mut Simulation,
    entries: &[Entry<'_>],
    report: &mut Vec<Line>,
) -> Result<(), Unheard>
    ensures { MatchResult result (λ _. report.new.items ≡ report.old.items ++ played (events_in entries.now) (play_of simulation.old)) (λ _. Begun (played (events_in entries.now) (play_of simulation.old)) report.old.items report.new.items) }
{
    let mut rest = entries;
    while let [entry, after @ ..] = rest {
        let moment = moment_of(entry, after);
        simulation.hear(entry.who, entry.message, moment, report)?;
        rest = after;
    }
    Ok(())
}

// Plays a script that is read whole first, and appends what is reported of the run. A report that names no broken premise names no address that two use.
pub fn play(heap: Global, script: &[u8], report: &mut Vec<Line>) -> Result<(), Stopped>
    ensures ended { Ended script.now report.old.items report.new.items result }
    ensures promise { NamesNoTwo }
{
    let mut entries = Vec::new(heap);
    script::read(script, &mut entries)?;
    let mut simulation = Simulation::new(heap)?;
    // whoever a script names is there
    play_all(&mut simulation, &entries, report).map_err(|_| Stopped::NoMemory)
}

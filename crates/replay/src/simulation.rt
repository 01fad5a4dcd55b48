ghost use Rattle.std.specs.Prelude.{◌≡◌, ℕ, ◌≤◌, false, List, is_ok, Some, IfOk, Err, MatchOption, OnOk};
ghost use Rattle.system.specs.Report.{beginning};
ghost use Rattle.replay.specs.declared.simulation.Unheard.TheVariants.{NoMemory, NoSuchParty};
ghost use Rattle.replay.specs.Heard.{Heard, called_by};
ghost use Rattle.replay.specs.Of.{play_of};
ghost use Rattle.replay.specs.Hearing.{event_in};
ghost use Rattle.replay.specs.Watch.{is_judged};
ghost use Rattle.replay.specs.Words.{unheard_words};

use crate::hearing::Hearing;
use crate::run::Run;
use crate::watch_steps::Moment;
use std::alloc::{AllocError, Global};
use std::error::Error;
use std::fmt;
use system::Line;

// Why a message is not brought to anybody.
#[derive(Clone, Copy, Debug, PartialEq, Eq)]
pub enum Unheard {
    // there are 64 clients
    NoSuchParty,
    NoMemory,
}

impl From<AllocError> for Unheard {
    ghost from_gives = { λ _ u. u ≡ NoMemory };

    fn from(_: AllocError) -> Unheard {
        Unheard::NoMemory
    }
}

impl fmt::Display for Unheard {
    ghost output = { λ unheard. Some (unheard_words unheard) };

    fn fmt<W: fmt::Write>(&self, f: &mut fmt::Formatter<W>) -> fmt::Result {
        f.write_str(match self {
            Unheard::NoSuchParty => "no such party",
            Unheard::NoMemory => "out of memory",
        })
    }
}

impl Error for Unheard {}

// A run, with room for the lines of one step.
#[derive(Drop)]
pub struct Simulation {
    pub(crate) run: Run,
    pub(crate) lines: Vec<Line>,
}

impl Simulation {
    // All are new, and nothing was heard.
    pub fn new(heap: Global) -> Result<Simulation, AllocError>
        ensures { IfOk result (λ s. play_of s ≡ beginning) }
    {
        let run = Run::new(heap)?;
        Ok(Simulation {
            run,
            lines: Vec::new(heap),
        })
    }

    fn hear_as(
        &mut self,
        hearing: &Hearing<'_>,
        moment: Moment,
        out: &mut Vec<Line>,
    ) -> Result<(), AllocError>
        ensures heard { OnOk result (Heard (is_judged moment) (event_in hearing.now) (play_of self.old) (play_of self.new) out.old.items out.new.items) }
        ensures kept { is_ok result ≡ false → out.new.items ≡ out.old.items }
    {
        self.lines.clear();
        self.run.step(hearing, moment, &mut self.lines)?;
        out.extend_from_slice(&self.lines)?;
        Ok(())
    }

    // A message comes to the server (0) or to a client (1 to 64), and what is reported of that is appended. Where it is refused, nothing is; without memory the run is at its end.
    pub fn hear(
        &mut self,
        who: u8,
        bytes: &[u8],
        moment: Moment,
        out: &mut Vec<Line>,
    ) -> Result<(), Unheard>
        ensures heard { OnOk result (Heard (is_judged moment) (called_by who bytes.now) (play_of self.old) (play_of self.new) out.old.items out.new.items) }
        ensures kept { is_ok result ≡ false → out.new.items ≡ out.old.items }
        ensures refused { 65 ≤ who → (result ≡ Err NoSuchParty) × (play_of self.new ≡ play_of self.old) }
    {
        let hearing = Hearing::of(who, bytes).ok_or(Unheard::NoSuchParty)?;
        self.hear_as(&hearing, moment, out)?;
        Ok(())
    }
}

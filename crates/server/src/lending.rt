ghost use Rattle.std.specs.Prelude.{◌≡◌, IfOk, false, Some, None, Option};
ghost use Rattle.journal.specs.declared.journal.Journal.{Journal};
ghost use Rattle.lease.specs.Of.{settings_of};
ghost use Rattle.lease.specs.Settings as model;
ghost use Rattle.lease.specs.Stands.{is_lost, server_of};
ghost use Rattle.lease.specs.Table.{empty};
ghost use Rattle.server.specs.Of.{lender_of};
ghost use Rattle.server.specs.Reply.{effects_of};
ghost use Rattle.server.specs.Server.{State, reads, requested, tells};
ghost use Rattle.server.specs.Steps.{Comes, FiledBy, Unwritten, missing};

use crate::effect::Lent;
use crate::lender::Lender;
use journal::Journal;
use lease::{Clock, Fault, Found, Keeper, Request, Settings};
use std::alloc::{AllocError, Global};

impl Lender {
    // The memory for a pool, with no lease in it: down, until it reads its device.
    pub(crate) fn new(heap: Global, settings: Settings, clock: Clock) -> Result<Lender, AllocError>
        ensures { IfOk result (λ l. (settings_of l.keeper.settings ≡ settings_of settings) × (server_of l.keeper ≡ record { clock = clock.ticks; up = false; silent = None; table = empty })) }
    {
        let mut keeper = Keeper::new(heap, settings)?;
        let places = vec![in heap; None; usize::from(settings.addresses())]?;
        keeper.restart(clock, Found::Table);
        keeper.crash();
        Ok(Lender { keeper, places })
    }

    // Reads the device: a table, or silence.
    pub(crate) fn read(
        &mut self,
        journal: &mut Journal,
        clock: Clock,
    ) -> Result<Option<Lent>, Fault>
        ensures { Comes journal.old (lender_of self.old journal.old) (reads (settings_of self.old.keeper.settings) clock.ticks (lender_of self.old journal.old)) result journal.new (lender_of self.new journal.new) }
    {
        let found = read_as(journal.recover(&mut self.places));
        self.keeper.load(&self.places);
        self.keeper.restart(clock, found);
        told(self.keeper.silent())
    }

    // A lease is on the device before it is in the table.
    pub(crate) fn request(
        &mut self,
        journal: &mut Journal,
        request: Request,
    ) -> Result<Option<Lent>, Fault>
        ensures { Comes journal.old (lender_of self.old journal.old) (requested (Some (settings_of self.old.keeper.settings)) request (lender_of self.old journal.old)) result journal.new (lender_of self.new journal.new) }
    {
        let Some(grant) = self.keeper.answer(request)? else {
            return Ok(None);
        };
        let lease = self.keeper.lease(grant);
        let now = self.keeper.clock().ticks();
        let written = journal.append(now, self.keeper.places(), lease)?;
        self.keeper.restore(lease);
        Ok(Some(Lent { written, grant }))
    }
}

// How the lending core names what a reading found. No From of the journal's: its three answers are two here, and that zeros count as a table is the server's rule.
fn read_as(found: journal::Found) -> Found
    ensures { is_lost result ≡ missing found }
{
    match found {
        journal::Found::Lost => Found::Nothing,
        journal::Found::New | journal::Found::Table => Found::Table,
    }
}

// What a reading comes to: the fault is told where it begins a silence.
fn told(silent: Option<u64>) -> Result<Option<Lent>, Fault>
    ensures effects { effects_of result ≡ tells silent }
    ensures file { (o : Option model.Settings) (before after : Journal) (s : State) → Unwritten before after → FiledBy o result before after s }
{
    silent.map_or(Ok(None), |_| Err(Fault::TableLost))
}

// What holds of every run, each statement on a contract, so that the crate isn't proved without it.
ghost use Rattle.lease.specs.Promise.{NeverTwo, CanHave, Keeps, InTable, OneLeaseEach};
ghost use Rattle.lease.specs.Premise.{CloselyIsEnough};
ghost use Rattle.lease.specs.Drift.{LittleDrift};
ghost use Rattle.lease.specs.Cases.{CasesHold};
ghost use Rattle.lease.specs.Code.{ServerImplements, ClientImplements};
ghost use Rattle.lease.specs.Witness.{LentOn, LastTick, LentAnew, Renewed};

// No two clients ever use one address: through crashes, requests heard and not answered, lost tables and the silence after.
pub fn never_two()
    ensures { NeverTwo }
{}

// Whoever is heard while an address is free for it has one.
pub fn can_have()
    ensures { CanHave }
{}

// Whoever uses an address, asks again and is heard, keeps it.
pub fn keeps()
    ensures { Keeps }
{}

// Whatever a client uses, the table has as its lease.
pub fn in_table()
    ensures { InTable }
{}

// No client ever has two live leases.
pub fn one_lease_each()
    ensures { OneLeaseEach }
{}

// The usual premise on clocks is stronger than what the promises need.
pub fn closely_is_enough()
    ensures { CloselyIsEnough }
{}

// Clocks that drift apart by at most the skew in all meet it.
pub fn little_drift()
    ensures { LittleDrift }
{}

// The worked cases.
pub fn cases_hold()
    ensures { CasesHold }
{}

// Runs within the premises, so that the promises aren't empty.
pub fn witnesses()
    ensures lent_on { LentOn }
    ensures last_tick { LastTick }
    ensures lent_anew { LentAnew }
    ensures renewed { Renewed }
{}

// Every step of the code is the model's: made of the very definitions that the contracts of its functions cite.
pub fn implements()
    ensures server { ServerImplements }
    ensures client { ClientImplements }
{}

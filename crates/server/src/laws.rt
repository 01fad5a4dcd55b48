// What holds of every step of a server, each statement on a contract.
ghost use Rattle.server.specs.Follows.{Begins, RunGoesOn, RunIsCut, RunTicks};
ghost use Rattle.server.specs.Orderly.{StepsOrderly};
ghost use Rattle.server.specs.Refines.{CutRefines, EventsOfRuns, SettlingStands, StepRefines};

// Written before answered: a grant is sent behind the places that were written for it.
pub fn steps_orderly()
    ensures { StepsOrderly }
{}

// Each step is what can happen to a server of the lending core, and sends the grants that it sends.
pub fn steps_refine()
    ensures { StepRefines }
{}

// So is a crash within an append, wherever it cuts the writes.
pub fn cuts_refine()
    ensures { CutRefines }
{}

// Where the settings come, a server with a sound device begins to stand for one.
pub fn settling_stands()
    ensures { SettlingStands }
{}

// What can happen to a server of the lending core are the events of its runs.
pub fn events_of_runs()
    ensures { EventsOfRuns }
{}

// So a run of the lending core goes on with the server's steps, cut ones too, and no two clients ever use one address.
pub fn runs_go_on()
    ensures begins { Begins }
    ensures steps { RunGoesOn }
    ensures ticks { RunTicks }
    ensures cuts { RunIsCut }
{}

// What holds of every run, each statement on a contract.
ghost use Rattle.system.specs.Clocks.{ClocksAgree};
ghost use Rattle.system.specs.Promise.{CanHave, Keeps, NamesNoTwo, NeverTwo};

// A report that names no broken premise names no address that two use.
pub fn names_no_two()
    ensures { NamesNoTwo }
{}

// No two clients use one address, through cut writes, damage and silence.
pub fn never_two()
    ensures { NeverTwo }
{}

// Whoever asked while an address is free for it has one by two messages.
pub fn can_have()
    ensures { CanHave }
{}

// Whoever uses an address and asked again keeps it by two messages.
pub fn keeps()
    ensures { Keeps }
{}

// Where no broken premise is named, the clocks of server and clients went on nearly alike between any two moments that were judged.
pub fn clocks_agree()
    ensures { ClocksAgree }
{}

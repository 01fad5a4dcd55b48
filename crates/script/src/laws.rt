// What is written can be read in one way, each statement on a contract, so that the crate isn't proved without it.
ghost use Rattle.script.specs.Laws.{NeverBoth, OneFault, OneReading};

// Two lists of entries that are written as the same bytes are equal.
pub fn one_reading()
    ensures { OneReading }
{}

// No script both has entries and a fault.
pub fn never_both()
    ensures { NeverBoth }
{}

// A script has its fault at one byte.
pub fn one_fault()
    ensures { OneFault }
{}

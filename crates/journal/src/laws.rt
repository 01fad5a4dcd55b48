// The journal's laws through crashes, over places: each is asked for by a function's contract.
ghost use Rattle.journal.specs.Laws.{AllSurvive, AnsweredStays, AppendStands, AppendSurvives, ChoiceTells, LastIsCut, NoneAppears, NoneTwice, RowIsRead};
ghost use Rattle.journal.specs.Witness.{Switches};

// After a whole append recovery gives the table with that lease, and goes on where the server does.
pub fn append_stands()
    ensures { AppendStands }
{}

// After a cut append recovery gives the table before it, or with the lease where its last write left the record.
pub fn append_survives()
    ensures { AppendSurvives }
{}

// The last record is cut and does not stand: that lease is not there, and was not answered.
pub fn last_is_cut()
    ensures { LastIsCut }
{}

// Over any number of appends, crashes, cut row switches and damages recovery gives the table that was answered for.
pub fn all_survive()
    ensures { AllSurvive }
{}

// A lease that was answered is there while it is kept.
pub fn answered_stays()
    ensures { AnsweredStays }
{}

// A lease that is there was appended.
pub fn none_appears()
    ensures { NoneAppears }
{}

// Without damage no two records have one sequence number.
pub fn none_twice()
    ensures { NoneTwice }
{}

// A row switch that is cut, begun anew and cut again, and then done.
pub fn switches()
    ensures { Switches }
{}

// What is read of a row is its longest front in sequence.
pub fn row_is_read()
    ensures { RowIsRead }
{}

// Zeros alone are new, and nothing else is; with no table neither row is whole.
pub fn choice_tells()
    ensures { ChoiceTells }
{}

// What membership means, on a contract, so that the crate isn't proved without it.
ghost use Rattle.seen.specs.Laws.{MembersAreIn};

// A stamp is a member of a list exactly if it stands in the list.
pub fn members_are_in()
    ensures { MembersAreIn }
{}

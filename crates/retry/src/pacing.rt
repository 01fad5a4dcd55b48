// What is promised of a client's requests over whole runs, each on a contract, so that the check asks for its proof.
ghost use Rattle.retry.specs.Pacing.{FourApart, SixtyApart, Halfway, PausesEnd, AsksInTime, DueAtOnce, KthPause, Timetable};
ghost use Rattle.retry.specs.Reached.{Reached};

// Without a start or an expiry in between, two requests lie at least 4 ticks apart.
pub fn four_apart()
    ensures { FourApart }
{}

// A client that uses an address asks at least 60 ticks after its last request.
pub fn sixty_apart()
    ensures { SixtyApart }
{}

// A client that uses an address is due once 60 ticks, and half of the use that was left, have passed since its last request.
pub fn halfway()
    ensures { Halfway }
{}

// A client without an address that asks whenever it is due never pauses for more than 64 ticks.
pub fn pauses_end()
    ensures { PausesEnd }
{}

// A client that asks whenever it is due asks again before its use is over.
pub fn asks_in_time()
    ensures { AsksInTime }
{}

// A client that has just started, or lost its address, is due at once.
pub fn due_at_once()
    ensures { DueAtOnce }
{}

// The pauses are 4, 8, 16, 32, 64, 64 and so on.
pub fn kth_pause()
    ensures { KthPause }
{}

// A client without an address that asks whenever it is due asks exactly when the pauses are over.
pub fn timetable()
    ensures { Timetable }
{}

// There are runs that meet the premises of these laws, and reach their bounds.
pub fn bounds_reached()
    ensures { Reached }
{}

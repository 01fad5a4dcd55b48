// What holds of a client over whole runs, each statement on a contract, so that the crate isn't proved without it.
ghost use Rattle.client.specs.Telling.{Told};
ghost use Rattle.client.specs.Nonces.{InOrder, UsedOnce};
ghost use Rattle.client.specs.Pacing.{FourApart, SixtyApart, PausesEnd, AsksInTime};

// What a client put out says at every moment exactly which address it uses.
pub fn always_told()
    ensures { Told }
{}

// Requests carry the nonces that were lent, in their order, each once.
pub fn used_once()
    ensures order { InOrder }
    ensures once { UsedOnce }
{}

// Two requests lie at least 4 ticks apart, and at least 60 while an address is in use.
pub fn requests_apart()
    ensures four { FourApart }
    ensures sixty { SixtyApart }
{}

// A client that has all that a request needs never pauses for more than 64 ticks without an address, and renews one in time.
pub fn asks_again()
    ensures pauses { PausesEnd }
    ensures renewal { AsksInTime }
{}

ghost use Rattle.text.specs.Laws.{RoundTrip, Written};

// The text that is written of a script or a stream is read as the very same bytes.
pub fn reads_back()
    ensures { RoundTrip }
{}

// Every list of entries is written, and read back.
pub fn every_script()
    ensures { Written }
{}

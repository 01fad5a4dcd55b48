ghost use Rattle.std.specs.Prelude.{List, [], ◌∷◌};
ghost use Rattle.house.specs.Acts.{Act, Does, Sent, Synced, Wrote};

use stream::Stop;
use wire::Message;

// A device and an output, by what was done: each call does one thing, or fails and has not done it.
pub trait Outside {
    ghost did: { Self → List Act → Type 0 };

    // Writes a place of the device.
    fn write(&mut self, place: usize, bytes: [u8; 28]) -> Result<(), Stop>
        ensures { Does did self.old (Wrote place bytes ∷ []) result self.new };

    // Makes all that was written durable.
    fn sync(&mut self) -> Result<(), Stop>
        ensures { Does did self.old (Synced ∷ []) result self.new };

    fn send(&mut self, message: Message) -> Result<(), Stop>
        ensures { Does did self.old (Sent message ∷ []) result self.new };
}

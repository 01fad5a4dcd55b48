ghost use Rattle.std.specs.Prelude.{◌≡◌};
ghost use Rattle.lease.specs.Fault.{number as numbered, Decodes};

// Why a message is refused; its number stands for it in a message.
#[derive(Clone, Copy, PartialEq, Eq, Debug)]
pub enum Fault {
    // unknown kind or bad length
    Malformed = 1,
    // an address outside the pool
    BadAddress = 2,
    // a grant for another client
    OtherClient = 3,
    // a grant whose request does not wait
    NotWaiting = 4,
    // a grant that came after its use is over
    TooLate = 5,
    // every address is lent
    NoneFree = 6,
    // settings out of range, missing, or given twice
    BadSettings = 7,
    // the lease table could not be read
    TableLost = 8,
    // a clock or a sequence number would reach 2^63
    CountExhausted = 9,
}

impl Fault {
    // The number that stands for the fault in a message.
    pub fn number(self) -> u8
        ensures { result ≡ numbered self }
    {
        self as u8
    }
}

// The fault that a number stands for; a number that stands for none is malformed.
impl TryFrom<u8> for Fault {
    type Error = Fault;

    ghost try_from_gives = { Decodes };

    fn try_from(number: u8) -> Result<Self, Fault> {
        // no derive makes an enum of its number; the clause ties each arm to number()
        match number {
            1 => Ok(Fault::Malformed),
            2 => Ok(Fault::BadAddress),
            3 => Ok(Fault::OtherClient),
            4 => Ok(Fault::NotWaiting),
            5 => Ok(Fault::TooLate),
            6 => Ok(Fault::NoneFree),
            7 => Ok(Fault::BadSettings),
            8 => Ok(Fault::TableLost),
            9 => Ok(Fault::CountExhausted),
            _ => Err(Fault::Malformed),
        }
    }
}

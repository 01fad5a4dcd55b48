ghost use Rattle.std.specs.Prelude.{◌≡◌};
ghost use Rattle.std.specs.Option.{ok_or};
ghost use Rattle.lease.specs.declared.fault.Fault.TheVariants.{Malformed};
ghost use Rattle.wire.specs.Kind.{table, kind_of};

use lease::Fault;

// What a message is about; its number is the message's first byte.
#[derive(Clone, Copy, Debug, PartialEq, Eq)]
pub enum Kind {
    Request = 1,
    Grant = 2,
    Settings = 3,
    Tick = 4,
    Crash = 5,
    Restart = 6,
    OwnNumber = 7,
    Nonce = 8,
    InUse = 16,
    NoAddress = 17,
    Fault = 18,
}

impl Kind {
    pub fn number(self) -> u8
        ensures { result ≡ (table self).number }
    {
        self as u8
    }

    // How many bytes a message of this kind has.
    pub fn size(self) -> u8
        ensures { result ≡ (table self).size }
    {
        match self {
            Kind::Request | Kind::Grant => 15,
            Kind::InUse => 11,
            Kind::Settings | Kind::Restart | Kind::Nonce => 9,
            Kind::OwnNumber => 5,
            Kind::Fault => 2,
            Kind::Tick | Kind::Crash | Kind::NoAddress => 1,
        }
    }
}

// The kind that a number stands for; a number that stands for none is malformed.
impl TryFrom<u8> for Kind {
    type Error = Fault;

    ghost try_from_gives = { λ number result. result ≡ ok_or (kind_of number) Malformed };

    fn try_from(number: u8) -> Result<Self, Fault> {
        // no derive makes an enum of its number; the clause ties each arm to number()
        match number {
            1 => Ok(Kind::Request),
            2 => Ok(Kind::Grant),
            3 => Ok(Kind::Settings),
            4 => Ok(Kind::Tick),
            5 => Ok(Kind::Crash),
            6 => Ok(Kind::Restart),
            7 => Ok(Kind::OwnNumber),
            8 => Ok(Kind::Nonce),
            16 => Ok(Kind::InUse),
            17 => Ok(Kind::NoAddress),
            18 => Ok(Kind::Fault),
            _ => Err(Fault::Malformed),
        }
    }
}

ghost use Rattle.std.specs.Prelude.{◌≡◌, ◌≤◌, length};
ghost use Rattle.text.specs.Kind.{name as kind-name, fields as kind-fields};
ghost use Rattle.text.specs.Verb.{name as verb_name, verb_of};

use crate::field::Field;

// What a line with a known message is about, but for a tick.
#[derive(Clone, Copy, Debug, PartialEq, Eq)]
pub enum Kind {
    Settings,
    Number,
    Nonce,
    Request,
    Grant,
    Crash,
    Restart,
    InUse,
    NoAddress,
    Fault,
}

// What a line says, by its first word behind the party.
#[derive(Clone, Copy, Debug, PartialEq, Eq)]
pub enum Verb {
    Tick,
    Bytes,
    Say(Kind),
}

impl Kind {
    // Bytes, as a text is: a Display would make of failed memory another error.
    pub fn name(self) -> &'static [u8]
        ensures { result.now ≡ kind-name self }
    {
        match self {
            Kind::Settings => b"settings",
            Kind::Number => b"number",
            Kind::Nonce => b"nonce",
            Kind::Request => b"request",
            Kind::Grant => b"grant",
            Kind::Crash => b"crash",
            Kind::Restart => b"restart",
            Kind::InUse => b"in-use",
            Kind::NoAddress => b"none",
            Kind::Fault => b"fault",
        }
    }

    // The numbers that a message of the kind has, in their order.
    pub fn fields(self) -> &'static [Field]
        ensures value { result.now ≡ kind-fields self }
        ensures few { length result.now ≤ 3 }
    {
        match self {
            Kind::Settings => &[Field::Addresses, Field::Term, Field::Skew],
            Kind::Number => &[Field::Client],
            Kind::Nonce => &[Field::Nonce],
            Kind::Request => &[Field::Client, Field::Nonce, Field::Preferred],
            Kind::Grant => &[Field::Client, Field::Nonce, Field::Address],
            Kind::Restart => &[Field::Clock],
            Kind::InUse => &[Field::Address, Field::Until],
            Kind::Fault => &[Field::Fault],
            Kind::Crash | Kind::NoAddress => &[],
        }
    }
}

impl Verb {
    const ALL: [Verb; 12] = [
        Verb::Tick,
        Verb::Bytes,
        Verb::Say(Kind::Settings),
        Verb::Say(Kind::Number),
        Verb::Say(Kind::Nonce),
        Verb::Say(Kind::Request),
        Verb::Say(Kind::Grant),
        Verb::Say(Kind::Crash),
        Verb::Say(Kind::Restart),
        Verb::Say(Kind::InUse),
        Verb::Say(Kind::NoAddress),
        Verb::Say(Kind::Fault),
    ];

    pub fn name(self) -> &'static [u8]
        ensures { result.now ≡ verb_name self }
    {
        match self {
            Verb::Tick => b"tick",
            Verb::Bytes => b"bytes",
            Verb::Say(kind) => kind.name(),
        }
    }

    // The verb that has this name.
    pub fn named(word: &[u8]) -> Option<Verb>
        ensures { result ≡ verb_of word.now }
    {
        Verb::ALL.iter().find(|verb| verb.name() == word).copied()
    }
}

ghost use Rattle.std.specs.Prelude.{◌≡◌, ℕ, List, [], ◌∷◌, ◌++◌, Some, MatchResult};
ghost use Rattle.stream.specs.Words.{stop_words};
ghost use Rattle.stream.specs.declared.hearer.Stop.TheVariants.{NoMemory};

use std::alloc::AllocError;
use std::error::Error;
use std::fmt;

// Why a program can't go on.
#[derive(Clone, Copy, Debug, PartialEq, Eq)]
pub enum Stop {
    NoMemory,
    // a lease could not be made durable
    NotSaved,
}

impl From<AllocError> for Stop {
    ghost from_gives = { λ _ stop. stop ≡ NoMemory };

    fn from(_error: AllocError) -> Stop {
        Stop::NoMemory
    }
}

impl fmt::Display for Stop {
    ghost output = { λ stop. Some (stop_words stop) };

    fn fmt<W: fmt::Write>(&self, f: &mut fmt::Formatter<W>) -> fmt::Result {
        f.write_str(match self {
            Self::NoMemory => "out of memory",
            Self::NotSaved => "a lease can't be saved",
        })
    }
}

impl Error for Stop {}

// Who hears messages, one after the other.
pub trait Hearer {
    // from the first to the second by these messages, each heard to its end
    ghost went: { Self → List (List ℕ) → Self → Type 0 };

    // from the first to the second by a message that could not be heard to its end
    ghost stopped: { Self → List ℕ → Self → Type 0 };

    fn hear(&mut self, bytes: &[u8]) -> Result<(), Stop>
        ensures { MatchResult result (λ _. went self.old (bytes.now ∷ []) self.new) (λ _. stopped self.old bytes.now self.new) };

    ghost stays: { (a : Self) → went a [] a };

    ghost goes: { (a b c : Self) (ms : List (List ℕ)) (m : List ℕ) → went a ms b → went b (m ∷ []) c → went a (ms ++ (m ∷ [])) c };
}

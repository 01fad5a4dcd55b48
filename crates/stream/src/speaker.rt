ghost use Rattle.std.specs.Prelude.{◌≡◌, ◌≤◌, length, IfOk};
ghost use Rattle.stream.specs.Words.{halt_words};
ghost use Rattle.stream.specs.declared.hearer.Stop.TheVariants.{NoMemory};
ghost use Rattle.stream.specs.declared.speaker.Halt.TheVariants.{Stopped};

use crate::hearer::{Hearer, Stop};
use crate::inbox::Inbox;
use std::alloc::AllocError;
use std::error::Error;
use std::io::{ErrorKind, Read};
use std::{fmt, io};

// So many bytes are read at once; a pipe holds as many.
const CHUNK: usize = 65_536;

// A hearer that puts messages out, wherever to.
pub trait Speaker: Hearer {
    // The stream ended within a message.
    fn tell_cut(&mut self) -> Result<(), Stop>;

    // Writes what was put out.
    fn flush(&mut self) -> io::Result<()>;
}

// Why a program ended before its input did.
#[derive(Clone, Copy, Debug)]
pub enum Halt {
    Stopped(Stop),
    Input(io::Error),
    Output(io::Error),
}

impl From<Stop> for Halt {
    ghost from_gives = { λ stop halt. halt ≡ Stopped stop };

    fn from(stop: Stop) -> Halt {
        Halt::Stopped(stop)
    }
}

impl From<AllocError> for Halt {
    ghost from_gives = { λ _ halt. halt ≡ Stopped NoMemory };

    fn from(error: AllocError) -> Halt {
        Halt::Stopped(Stop::from(error))
    }
}

impl fmt::Display for Halt {
    ghost output = { halt_words };

    fn fmt<W: fmt::Write>(&self, f: &mut fmt::Formatter<W>) -> fmt::Result {
        match self {
            Halt::Stopped(stop) => write!(f, "{stop}"),
            Halt::Input(error) => write!(f, "standard input: {error}"),
            Halt::Output(error) => write!(f, "standard output: {error}"),
        }
    }
}

impl Error for Halt {}

// Reads what is at hand, or waits for it; 0 is the end of the input.
fn read_some(input: &mut impl Read, chunk: &mut [u8]) -> Result<usize, Halt>
    ensures { IfOk result (λ n. n ≤ length chunk.old) }
{
    // A bound, since a loop that waits for input has none of its own to end by.
    for _ in 0..u64::MAX {
        match input.read(chunk) {
            Err(error) if error.kind() == ErrorKind::Interrupted => {}
            read => return read.map_err(Halt::Input),
        }
    }
    Ok(0)
}

// Hears standard input to its end; what is put out is written whenever no more input is at hand.
pub fn serve<S: Speaker>(rt: &HostRuntime, speaker: &mut S) -> Result<(), Halt> {
    let mut chunk = vec![in rt.alloc(); 0u8; CHUNK]?;
    let mut inbox = Inbox::new(rt.alloc());
    let mut input = rt.stdin();
    for _ in 0..u64::MAX {
        let count = read_some(&mut input, &mut chunk)?;
        if count == 0 {
            break;
        }
        let heard = inbox.feed(&chunk[..count], speaker);
        // what was answered before a stop is saved, and goes out
        speaker.flush().map_err(Halt::Output)?;
        heard?;
    }
    if inbox.is_cut() {
        speaker.tell_cut()?;
    }
    speaker.flush().map_err(Halt::Output)
}

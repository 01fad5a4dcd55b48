ghost use Rattle.std.specs.Prelude.{◌≡◌, None};

use crate::outside::Outside;
use std::fs::File;
use std::io;
use std::io::{ErrorKind, Seek, SeekFrom, Write};
use stream::{Outbox, Stop};
use wire::Message;

const PLACE_BYTES: u64 = 28;

// The device in a file, and messages on their way to standard output. Nothing is said of what a file system does.
#[derive(Drop)]
pub struct FileOutside {
    file: File,
    pub(crate) out: Outbox,
    // why the file could not be written: a Stop is compared in clauses, and an io::Error is no value that they can compare
    pub(crate) failure: Option<io::Error>,
}

impl FileOutside {
    pub fn new(file: File, out: Outbox) -> FileOutside
        ensures file { result.file ≡ file }
        ensures out { result.out ≡ out }
        ensures failure { result.failure ≡ None }
    {
        FileOutside {
            file,
            out,
            failure: None,
        }
    }

    // Why it failed stands here, beside the Stop.
    fn noted(&mut self, res: io::Result<()>) -> Result<(), Stop> {
        res.map_err(|e| {
            self.failure = Some(e);
            Stop::NotSaved
        })
    }
}

fn write_at(file: &mut File, place: usize, bytes: &[u8]) -> io::Result<()> {
    let at = PLACE_BYTES.checked_mul(place as u64).ok_or_else(|| io::Error::new(
        ErrorKind::InvalidInput,
        "no such place",
    ))?;
    file.seek(SeekFrom::Start(at))?;
    file.write_all(bytes)
}

impl Outside for FileOutside {
    ghost did = { λ _ _. Unit {0} };

    fn write(&mut self, place: usize, bytes: [u8; 28]) -> Result<(), Stop> {
        let written = write_at(&mut self.file, place, &bytes);
        self.noted(written)
    }

    fn sync(&mut self) -> Result<(), Stop> {
        let synced = self.file.sync_data();
        self.noted(synced)
    }

    fn send(&mut self, message: Message) -> Result<(), Stop> {
        self.out.put(message)
    }
}

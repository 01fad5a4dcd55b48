ghost use Rattle.std.specs.Prelude.{◌≡◌, IfOk};
ghost use Rattle.house.specs.Device.{unusable_by};
ghost use Rattle.house.specs.declared.device.Unusable.TheVariants.{NoMemory};
ghost use Rattle.journal.specs.Memory.{HasRead};

use journal::{Journal, OpenError, device_bytes};
use std::alloc::AllocError;
use std::fs::{File, OpenOptions};
use std::io;
use std::io::Read;
use thiserror::Error;

// Why a device can't be used.
#[derive(Debug, Clone, Copy, Error)]
pub enum Unusable {
    #[error("{0}")]
    Failed(#[from] io::Error),
    #[error("a device has 229376 bytes")]
    WrongLength,
    #[error("out of memory")]
    NoMemory,
}

impl From<AllocError> for Unusable {
    ghost from_gives = { λ _ why. why ≡ NoMemory };

    fn from(_: AllocError) -> Unusable {
        Unusable::NoMemory
    }
}

impl From<OpenError> for Unusable {
    ghost from_gives = { λ error why. why ≡ unusable_by error };

    fn from(error: OpenError) -> Unusable {
        match error {
            OpenError::WrongLength => Unusable::WrongLength,
            OpenError::NoRoom => Unusable::NoMemory,
        }
    }
}

// A file is never made: a mistyped path would be an empty table.
fn open_file(rt: &HostRuntime, path: &str) -> Result<File, Unusable> {
    let file = OpenOptions::new().read(true).write(true).open(rt, path)?;
    if file.metadata()?.len() != device_bytes() as u64 {
        return Err(Unusable::WrongLength);
    }
    Ok(file)
}

// The device's file and what it holds. Nothing is said of what a file system reads.
pub fn open(rt: &HostRuntime, path: &str) -> Result<(File, Journal), Unusable>
    ensures { IfOk result (λ opened. HasRead opened.1) }
{
    let mut file = open_file(rt, path)?;
    let mut bytes = vec![in rt.alloc(); 0; device_bytes()]?;
    file.read_exact(&mut bytes)?;
    let journal = Journal::read(rt.alloc(), &bytes)?;
    Ok((file, journal))
}

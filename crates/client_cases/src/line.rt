use anyhow::bail;
use std::alloc::{AllocError, Global};

// A message's bytes, and how often it is heard.
#[derive(Drop)]
pub struct Line {
    pub bytes: Vec<u8>,
    pub times: u32,
}

impl Line {
    // A message's bytes, and behind a star how often. It is no `FromStr`, to which no allocator is lent.
    pub fn of(heap: Global, text: &str) -> anyhow::Result<Line> {
        let (digits, times) = text.split_once('*').unwrap_or((text, "1"));
        let times = times.trim().parse()?;
        Ok(Line {
            bytes: bytes_of(heap, digits)?,
            times,
        })
    }
}

// Two lower digits to a byte, wherever spaces stand. The crate hex takes upper digits too, and says otherwise what is wrong.
fn bytes_of(heap: Global, text: &str) -> anyhow::Result<Vec<u8>> {
    let digits: String = text.split(' ').collect(heap)?;
    if !digits
        .bytes()
        .all(|byte| matches!(byte, b'0'..=b'9' | b'a'..=b'f'))
    {
        bail!("no hexadecimal digit");
    }
    if digits.len() % 2 == 1 {
        bail!("half a byte");
    }
    // only memory can be wanting now
    let bytes = hex::decode(heap, digits).map_err(|_| AllocError)?;
    Ok(bytes)
}

use anyhow::{Result, anyhow, bail};
use std::alloc::{AllocError, Global};
use text::Form;

// A text to be read, or bytes to be written.
#[derive(Drop)]
pub enum Case {
    Text(Form, Vec<u8>),
    Bytes(Form, Vec<u8>),
}

impl Case {
    pub fn of(heap: Global, line: &str) -> Result<Case> {
        let (word, rest) = line.split_once(' ').unwrap_or((line, ""));
        match word {
            "script" => Ok(Case::Text(Form::Script, text_of(heap, rest)?)),
            "stream" => Ok(Case::Text(Form::Stream, text_of(heap, rest)?)),
            "read-script" => Ok(Case::Bytes(Form::Script, bytes_of(heap, rest)?)),
            "read-stream" => Ok(Case::Bytes(Form::Stream, bytes_of(heap, rest)?)),
            _ => Err(anyhow!("no such case")),
        }
    }
}

// A bar stands for the end of a line.
fn text_of(heap: Global, text: &str) -> Result<Vec<u8>, AllocError> {
    text.bytes()
        .map(|byte| if byte == b'|' { b'\n' } else { byte })
        .collect(heap)
}

// Two lower digits to a byte; a space counts for nothing. The crate hex takes upper digits too, and says otherwise what is wrong.
fn bytes_of(heap: Global, text: &str) -> Result<Vec<u8>> {
    let digits: String = text.split(' ').collect(heap)?;
    if !digits
        .bytes()
        .all(|byte| matches!(byte, b'0'..=b'9' | b'a'..=b'f'))
    {
        bail!("no hexadecimal digit");
    }
    if digits.len() % 2 == 1 {
        bail!("half a byte");
    }
    // only memory can be wanting now
    let bytes = hex::decode(heap, digits).map_err(|_| AllocError)?;
    Ok(bytes)
}

use anyhow::{Context, anyhow, bail};
use lease::Settings;
use std::alloc::{AllocError, Global};
use std::str::FromStr;
use wire::Reader;

// What the bytes of a line are: one message to this reader, or a stream of messages to a server.
#[derive(Clone, Copy)]
pub enum Form {
    Message(Reader),
    Stream,
}

impl FromStr for Form {
    type Err = anyhow::Error;

    fn from_str(word: &str) -> anyhow::Result<Form> {
        match word {
            "server" => Ok(Form::Message(Reader::Server)),
            "client" => Ok(Form::Message(Reader::Client)),
            "tool" => Ok(Form::Message(Reader::Tool)),
            "stream" => Ok(Form::Stream),
            _ => Err(anyhow!("no reader")),
        }
    }
}

// A line of the table: its form, what settings are known, and the bytes.
#[derive(Drop)]
pub struct Case {
    pub form: Form,
    pub settings: Option<Settings>,
    pub bytes: Vec<u8>,
}

impl Case {
    // It is no `FromStr`, to which no allocator is lent.
    pub fn of(heap: Global, line: &str) -> anyhow::Result<Case> {
        let (form, rest) = line
            .split_once(' ')
            .context("a case has a reader and settings")?;
        let (settings, digits) = rest.split_once(' ').unwrap_or((rest, ""));
        Ok(Case {
            form: form.parse()?,
            settings: settings_of(settings)?,
            bytes: bytes_of(heap, digits)?,
        })
    }
}

// Three numbers, or a dash where none are known.
fn settings_of(text: &str) -> anyhow::Result<Option<Settings>> {
    if text == "-" {
        return Ok(None);
    }
    let (addresses, rest) = text.split_once(',').context("settings have three numbers")?;
    let (term, skew) = rest.split_once(',').context("settings have three numbers")?;
    Settings::new(addresses.parse()?, term.parse()?, skew.parse()?)
        .map(Some)
        .map_err(|_| anyhow!("settings out of range"))
}

// Two lower digits to a byte, wherever spaces stand. The crate hex takes upper digits too, and says otherwise what is wrong.
fn bytes_of(heap: Global, text: &str) -> anyhow::Result<Vec<u8>> {
    let digits: String = text.split(' ').collect(heap)?;
    if !digits
        .bytes()
        .all(|byte| matches!(byte, b'0'..=b'9' | b'a'..=b'f'))
    {
        bail!("no hexadecimal digit");
    }
    if digits.len() % 2 == 1 {
        bail!("half a byte");
    }
    // only memory can be wanting now
    let bytes = hex::decode(heap, digits).map_err(|_| AllocError)?;
    Ok(bytes)
}

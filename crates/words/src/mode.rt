use std::error::Error;
use std::fmt;
use std::str::FromStr;
use text::Form;

// What is made of the input.
#[derive(Clone, Copy, Debug, PartialEq, Eq)]
pub enum Mode {
    ToBytes(Form),
    ToText(Form),
}

// A word that names no mode.
#[derive(Clone, Copy, Debug, PartialEq, Eq)]
pub struct UnknownMode;

impl FromStr for Mode {
    type Err = UnknownMode;

    fn from_str(word: &str) -> Result<Mode, UnknownMode> {
        match word {
            "script" => Ok(Mode::ToBytes(Form::Script)),
            "stream" => Ok(Mode::ToBytes(Form::Stream)),
            "read-script" => Ok(Mode::ToText(Form::Script)),
            "read-stream" => Ok(Mode::ToText(Form::Stream)),
            _ => Err(UnknownMode),
        }
    }
}

impl fmt::Display for UnknownMode {
    fn fmt<W: fmt::Write>(&self, f: &mut fmt::Formatter<W>) -> fmt::Result {
        f.write_str("no such mode")
    }
}

impl Error for UnknownMode {}

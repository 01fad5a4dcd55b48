// The crate hex wants a buffer of the exact length and may refuse; here the words were judged and the vector grows.
ghost use Rattle.std.specs.Prelude.{◌≡◌, ◌<◌, ◌++◌, ◌||◌, OnOk};
ghost use Rattle.text.specs.Hex.{digit, nibble, pairs, six, ten, written, meant};

use std::alloc::AllocError;

// char::from_digit takes 32 bits and gives an Option of a char: three conversions in place of this line.
fn digit_of(n: u8) -> u8
    requires { n < 16 }
    ensures { result ≡ digit n }
{
    if n < 10 { b'0' + n } else { b'a' - 10 + n }
}

// What a digit stands for; another byte stands for 0, as in `nibble`, since `is_hex` has judged the word before.
// char::to_digit takes upper digits too.
fn value_of(byte: u8) -> u8
    ensures value { result ≡ nibble byte }
    ensures small { result < 16 }
{
    match byte {
        b'0'..=b'9' => byte - b'0',
        b'a'..=b'f' => byte - b'a' + 10,
        _ => 0,
    }
}

fn is_digit(byte: u8) -> bool
    ensures { result ≡ (ten byte || six byte) }
{
    matches!(byte, b'0'..=b'9' | b'a'..=b'f')
}

// Whether the word is whole bytes in lower hexadecimal digits.
pub fn is_hex(word: &[u8]) -> bool
    ensures { result ≡ pairs word.now }
{
    word.len() % 2 == 0 && word.iter().all(|byte| is_digit(*byte))
}

// Appends the bytes that the word's digits say.
pub fn read_hex(word: &[u8], out: &mut Vec<u8>) -> Result<(), AllocError>
    ensures { OnOk result (out.new.items ≡ out.old.items ++ meant word.now) }
{
    let (pairs, _) = word.as_chunks::<2>();
    for [high, low] in pairs {
        out.push(value_of(*high) * 16 + value_of(*low))?;
    }
    Ok(())
}

// Appends two digits for each byte.
pub fn write_hex(bytes: &[u8], out: &mut Vec<u8>) -> Result<(), AllocError>
    ensures { OnOk result (out.new.items ≡ out.old.items ++ written bytes.now) }
{
    for byte in bytes {
        out.extend_from_slice(&[digit_of(*byte / 16), digit_of(*byte % 16)])?;
    }
    Ok(())
}

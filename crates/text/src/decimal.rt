ghost use Rattle.std.specs.Prelude.{◌≡◌, ◌≤◌, ◌++◌, IfSome, decimal, OnOk};
ghost use Rattle.text.specs.Decimal.{longer, number_of};

use itoa::Buffer;
use std::alloc::AllocError;

// Appends the number's digits.
pub fn write_decimal(n: u64, out: &mut Vec<u8>) -> Result<(), AllocError>
    ensures { OnOk result (out.new.items ≡ out.old.items ++ decimal n) }
{
    let mut buffer = Buffer::new();
    out.extend_from_slice(buffer.format(n).as_bytes())
}

// The number with one more digit behind it, if that is a digit and does not bring it past `most`.
fn with_digit(n: u64, byte: u8, most: u64) -> Option<u64>
    ensures value { result ≡ longer most n byte }
    ensures within { IfSome result (λ next. next ≤ most) }
{
    let digit = char::from(byte).to_digit(10)?;
    let next = n.checked_mul(10)?.checked_add(u64::from(digit))?;
    (next <= most).then_some(next)
}

// The number that a word says, if it is one and at most `most`.
pub fn read_decimal(word: &[u8], most: u64) -> Option<u64>
    ensures value { result ≡ number_of most word.now }
    ensures within { IfSome result (λ n. n ≤ most) }
{
    if word.is_empty() {
        return None;
    }
    let mut n = 0;
    for byte in word {
        n = with_digit(n, *byte, most)?;
    }
    Some(n)
}

// Decimal numbers: one digit or more and nothing else, leading zeros allowed; before a signed one there may be one minus sign.
ghost use Rattle.std.specs.Prelude.{◌≡◌, Some, None, cond, ◌-◌};
ghost use Rattle.std.specs.Char.{is_ascii_digit};
ghost use Rattle.lines.specs.Numbers.{unsigned_of, signed_of};

// The value of a digit.
fn digit(byte: u8) -> Option<u8>
    ensures { result ≡ cond (is_ascii_digit byte) (Some (byte - 48)) None }
{
    match byte {
        b'0'..=b'9' => Some(byte - b'0'),
        _ => None,
    }
}

// The number that a word writes, if it is one of at most 64 bits.
pub fn unsigned_64(word: &[u8]) -> Option<u64>
    ensures { result ≡ unsigned_of 18446744073709551615 word.now }
{
    if word.is_empty() {
        return None;
    }
    let mut value: u64 = 0;
    for byte in word {
        let digit = digit(*byte)?;
        value = value.checked_mul(10)?.checked_add(u64::from(digit))?;
    }
    Some(value)
}

pub fn unsigned_32(word: &[u8]) -> Option<u32>
    ensures { result ≡ unsigned_of 4294967295 word.now }
{
    u32::try_from(unsigned_64(word)?).ok()
}

pub fn unsigned_8(word: &[u8]) -> Option<u8>
    ensures { result ≡ unsigned_of 255 word.now }
{
    u8::try_from(unsigned_64(word)?).ok()
}

// Of 32 bits in two's complement; -0 is 0.
pub fn signed_32(word: &[u8]) -> Option<i32>
    ensures { result ≡ signed_of word.now }
{
    match word {
        [b'-', size @ ..] => 0_i32.checked_sub_unsigned(unsigned_32(size)?),
        _ => i32::try_from(unsigned_32(word)?).ok(),
    }
}

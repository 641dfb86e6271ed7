//! Numbers in texts.
ghost use Rattle.std.specs.Prelude.{◌≡◌};
ghost use Rattle.xl_capture.specs.Numbers.{with_digit, has_leading_zero, number_of};

/// Whether a zero stands before other bytes.
fn has_leading_zero(word: &[u8]) -> bool
    ensures { result ≡ has_leading_zero word.now }
{
    matches!(word, [b'0', _, ..])
}

/// The number with one decimal digit more at its end; None if the byte is no digit, or from 2^64 on.
fn with_digit(number: u64, byte: u8) -> Option<u64>
    ensures { result ≡ with_digit number byte }
{
    if !byte.is_ascii_digit() {
        return None;
    }
    number.checked_mul(10)?.checked_add(u64::from(byte - b'0'))
}

/// The number below 2^64 that a word of decimal digits is, without sign and without leading zeros.
pub fn number_of(word: &[u8]) -> Option<u64>
    ensures { result ≡ number_of word.now }
{
    if word.is_empty() || has_leading_zero(word) {
        return None;
    }
    let mut number = 0u64;
    'digits: for byte in word {
        number = with_digit(number, *byte)?;
    }
    Some(number)
}

// Numbers and levels as they are written.
ghost use Rattle.std.specs.Prelude.{◌≡◌, ◌≤◌, drop, length, take};
ghost use Rattle.xb_contact.specs.Numbers.{after_digits, digit_after, is_digit, leading_digits, level_of, number_after, number_in, number_of, number_said, tenths_said};

use crate::level::Level;
use xb_text::cut_at;

/// A number with one more digit after it, in this base; `None` for 2^64 and more.
pub fn digit_after(base: u64, number: u64, digit: u8) -> Option<u64>
    ensures { result ≡ digit_after base number digit }
{
    match number.checked_mul(base) {
        Some(product) => product.checked_add(u64::from(digit)),
        None => None,
    }
}

/// Whether a byte is an ASCII digit.
pub fn is_digit(byte: u8) -> bool
    ensures { result ≡ is_digit byte }
{
    byte >= b'0' && byte <= b'9'
}

/// A number with an ASCII digit after it; `None` for any other byte, or 2^64 and more.
pub fn number_after(number: u64, byte: u8) -> Option<u64>
    ensures { result ≡ number_after number byte }
{
    if is_digit(byte) {
        digit_after(10, number, byte - b'0')
    } else {
        None
    }
}

/// The number that ASCII digits write; `None` for no digit, any other byte, or 2^64 and more.
pub fn number_of(text: &[u8]) -> Option<u64>
    ensures { result ≡ number_of text.now }
{
    if text.is_empty() {
        return None;
    }
    let mut number: u64 = 0;
    for byte in text {
        match number_after(number, *byte) {
            Some(longer) => number = longer,
            None => return None,
        }
    }
    Some(number)
}

// How many digits a text begins with.
fn digits_before(text: &[u8]) -> usize
    ensures within { result ≤ length text.now }
    ensures digits { take result text.now ≡ leading_digits text.now }
    ensures rest { drop result text.now ≡ after_digits text.now }
{
    for (i, byte) in text.iter().enumerate() {
        if !is_digit(*byte) {
            return i;
        }
    }
    text.len()
}

/// The ASCII digits that a text begins with, and what follows them.
pub fn cut_digits(text: &[u8]) -> (&[u8], &[u8])
    ensures digits { result.0.now ≡ leading_digits text.now }
    ensures rest { result.1.now ≡ after_digits text.now }
{
    let length = digits_before(text);
    (&text[..length], &text[length..])
}

// A number of at most 1,000 in digits.
fn number_said(digits: &[u8]) -> Option<u64>
    ensures { result ≡ number_said digits.now }
{
    let number = number_of(digits)?;
    if number > 1_000 {
        return None;
    }
    Some(number)
}

/// A figure of at most 1,000 with at most one place, as 9.5 or 10, in tenths; `None` for any other text.
pub fn tenths_said(text: &[u8]) -> Option<u64>
    ensures { result ≡ tenths_said text.now }
{
    match cut_at(b'.', text) {
        None => Some(number_said(text)? * 10),
        Some((whole, tenth)) if tenth.len() == 1 => {
            Some(number_said(whole)? * 10 + number_said(tenth)?)
        }
        Some(_) => None,
    }
}

/// The level that `0`, which is low and an open contact, or `1` writes; `None` for any other text.
pub fn level_of(text: &[u8]) -> Option<Level>
    ensures { result ≡ level_of text.now }
{
    match text {
        b"0" => Some(Level::Open),
        b"1" => Some(Level::Closed),
        _ => None,
    }
}

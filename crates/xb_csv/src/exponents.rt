// Times in seconds with an exponent, as WaveForms writes those near 0.
ghost use Rattle.std.specs.Prelude.{◌≡◌, ◌*◌, ◌/◌, ◌<◌, ◌^◌, SomeIff, length};
ghost use Rattle.xb_csv.specs.Seconds.{digits_of, exponent_of, fitting, nanoseconds_by_exponent, point_parts, scientific, shifted, tens_of};
ghost use Rattle.xb_contact.specs.Numbers.{number_in};

use crate::seconds::point_parts;
use xb_contact::{number_after, number_of};

// The most tens of an exponent, and one more.
const TOO_MANY_TENS: u64 = 1_000;

// The tens that 64 bits hold.
const MOST_TENS: u64 = 19;

/// A power of ten.
#[derive(Clone, Copy, Debug, PartialEq, Eq)]
pub(crate) enum Exponent {
    /// So many tens up.
    Up(u16),
    /// So many tens down.
    Down(u16),
}

// The number of tens that digits write.
fn tens_of(text: &[u8]) -> Option<u16>
    ensures { result ≡ tens_of text.now }
{
    match number_of(text) {
        Some(tens) if tens < TOO_MANY_TENS => Some(tens as u16),
        _ => None,
    }
}

// What an exponent writes.
fn exponent_of(text: &[u8]) -> Option<Exponent>
    ensures { result ≡ exponent_of text.now }
{
    if text.starts_with(b"-") {
        return match tens_of(&text[1..]) {
            Some(tens) => Some(Exponent::Down(tens)),
            None => None,
        };
    }
    let digits = if text.starts_with(b"+") {
        &text[1..]
    } else {
        text
    };
    match tens_of(digits) {
        Some(tens) => Some(Exponent::Up(tens)),
        None => None,
    }
}

// A number with further digits after it.
fn number_with(number: u64, digits: &[u8]) -> Option<u64>
    ensures { result ≡ number_in number digits.now }
{
    let mut number = number;
    for byte in digits {
        match number_after(number, *byte) {
            Some(longer) => number = longer,
            None => return None,
        }
    }
    Some(number)
}

// The number that the digits of both write.
fn digits_of(whole: &[u8], fraction: &[u8]) -> Option<u64>
    ensures { result ≡ digits_of (whole.now, fraction.now) }
{
    number_with(number_of(whole)?, fraction)
}

// Ten to a power, if 64 bits hold it.
#[tactic(auto, using(crate::proofs::TenLemmas::tens_above))]
fn ten_to(power: u64) -> Option<u64>
    ensures { SomeIff result (10 ^ power < 2 ^ 64) (10 ^ power) }
{
    if power > MOST_TENS {
        return None;
    }
    10u64.checked_pow(power as u32)
}

// A number so many tens up.
#[tactic(auto, using(crate::proofs::TenLemmas::too_far_up, crate::proofs::TenLemmas::nothing_up))]
fn tens_up(number: u64, tens: u64) -> Option<u64>
    ensures { result ≡ fitting (number * 10 ^ tens) }
{
    match ten_to(tens) {
        Some(power) => number.checked_mul(power),
        None if number == 0 => Some(0),
        None => None,
    }
}

// A number so many tens down, without what is no whole number then.
#[tactic(auto, using(crate::proofs::TenLemmas::too_far_down))]
fn tens_down(number: u64, tens: u64) -> u64
    ensures { result ≡ number / 10 ^ tens }
{
    match ten_to(tens) {
        Some(power) => number / power,
        None => 0,
    }
}

// A number so many tens up, and so many down.
fn shifted(number: u64, up: u64, down: u64) -> Option<u64>
    ensures { result ≡ fitting (shifted number up down) }
{
    if up >= down {
        tens_up(number, up - down)
    } else {
        Some(tens_down(number, down - up))
    }
}

// The nanoseconds of digits, of which these stand after the point.
fn nanoseconds_by_exponent(digits: u64, fraction: &[u8], exponent: Exponent) -> Option<u64>
    ensures { result ≡ fitting (nanoseconds_by_exponent digits (length fraction.now) exponent) }
{
    let places = fraction.len() as u64;
    match exponent {
        Exponent::Up(tens) => shifted(digits, 9 + u64::from(tens), places),
        Exponent::Down(tens) => shifted(digits, 9, places + u64::from(tens)),
    }
}

/// Seconds with an exponent, in nanoseconds; what is less than one is left out. `None` where they are not written as
/// digits, which may have a point, and an exponent below 1,000; where all their digits write 2^64 or more, or the
/// nanoseconds are so many.
pub(crate) fn scientific(mantissa: &[u8], exponent: &[u8]) -> Option<u64>
    ensures { result ≡ scientific (point_parts mantissa.now) exponent.now }
{
    let (whole, fraction) = point_parts(mantissa);
    let digits = digits_of(whole, fraction)?;
    nanoseconds_by_exponent(digits, fraction, exponent_of(exponent)?)
}

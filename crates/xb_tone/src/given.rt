// What options are given that take a text of their own form.
ghost use Rattle.std.specs.Prelude.{◌≡◌, ◌≤◌, IfSome};
ghost use Rattle.xb_tone.specs.Givens.{after_sign, given_as, is_below, is_given, magnitude, ms_said, said_or, signed, signed_ms, signed_tenths};

use xb_contact::{number_of, tenths_said};

// What an option is given.
#[derive(Clone, Copy)]
pub(crate) enum Given<T> {
    // Nothing: it is not there.
    Absent,
    // A text that is not of its form.
    Wrong,
    // What its text says.
    Said(T),
}

// The longest time of a key, in ms.
const MOST_KEY_MS: u64 = 10_000;

// The tenths of a figure without a sign, up to 100.
fn magnitude(text: &[u8]) -> Option<u16>
    ensures value { result ≡ magnitude text.now }
    ensures bound { IfSome result (λ tenths. tenths ≤ 1000) }
{
    let tenths = tenths_said(text)?;
    if tenths <= 1_000 {
        Some(tenths as u16)
    } else {
        None
    }
}

// A time of a key in whole ms, up to 10,000.
pub(crate) fn ms_said(text: &[u8]) -> Option<u16>
    ensures value { result ≡ ms_said text.now }
    ensures bound { IfSome result (λ ms. ms ≤ 10000) }
{
    let ms = number_of(text)?;
    if ms <= MOST_KEY_MS {
        Some(ms as u16)
    } else {
        None
    }
}

// Whether a figure is below 0: a `-` stands before it.
fn is_below(text: &[u8]) -> bool
    ensures { result ≡ is_below text.now }
{
    text.first() == Some(&b'-')
}

// What stands after the sign of a figure, if it has one.
fn after_sign(text: &[u8]) -> &[u8]
    ensures { result.now ≡ after_sign text.now }
{
    match text.split_first() {
        Some((b'-', rest)) => rest,
        _ => text,
    }
}

// A size with its sign.
fn signed(below: bool, size: u16) -> i16
    requires { size ≤ 10000 }
    ensures { result ≡ signed below size }
{
    if below { -(size as i16) } else { size as i16 }
}

// The tenths of a figure from -100 to 100.
pub(crate) fn signed_tenths(text: &[u8]) -> Option<i16>
    ensures { result ≡ signed_tenths text.now }
{
    let tenths = magnitude(after_sign(text))?;
    Some(signed(is_below(text), tenths))
}

// A time of a key in whole ms, from -10,000 to 10,000.
pub(crate) fn signed_ms(text: &[u8]) -> Option<i16>
    ensures { result ≡ signed_ms text.now }
{
    let ms = ms_said(after_sign(text))?;
    Some(signed(is_below(text), ms))
}

// What is made of the text of an option.
pub(crate) fn given_as<T>(said: Option<T>) -> Given<T>
    ensures { result ≡ given_as said }
{
    match said {
        Some(it) => Given::Said(it),
        None => Given::Wrong,
    }
}

// Whether an option is there.
pub(crate) fn is_given<T>(given: &Given<T>) -> bool
    ensures { result ≡ is_given given.now }
{
    match given {
        Given::Absent => false,
        Given::Wrong | Given::Said(_) => true,
    }
}

// What an option says, or the standard where it is not there.
pub(crate) fn said_or<T: Copy>(given: Given<T>, standard: T) -> Option<T>
    ensures { result ≡ said_or given standard }
{
    match given {
        Given::Absent => Some(standard),
        Given::Wrong => None,
        Given::Said(it) => Some(it),
    }
}

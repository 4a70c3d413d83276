// Keys with their times, as plain numbers.
ghost use Rattle.std.specs.Prelude.{◌≡◌};
ghost use Rattle.xb_onward.specs.Keys.{digit_or_other, key_in, symbol_in};

use xb_incoming::{Symbol, TimedKey};
use xb_model::Digit;

/// A key that was heard on a trunk.
#[repr(C)]
#[derive(Clone, Copy)]
pub struct PlainKey {
    /// When it began, in ms from the beginning of the sound.
    pub begin_ms: u64,
    /// When it ended.
    pub end_ms: u64,
    /// What it is: 1 a digit, 2 KP, 3 ST, any other a pair that is none of these.
    pub kind: u8,
    /// The digit. What is over 9 is none, and the key is another pair.
    pub digit: u8,
}

fn digit_or_other(number: u8) -> Symbol
    ensures { result ≡ digit_or_other number }
{
    match Digit::new(number) {
        Some(digit) => Symbol::Digit(digit),
        None => Symbol::Other,
    }
}

fn symbol_of(key: &PlainKey) -> Symbol
    ensures { result ≡ symbol_in key.now }
{
    match key.kind {
        1 => digit_or_other(key.digit),
        2 => Symbol::Kp,
        3 => Symbol::St,
        _ => Symbol::Other,
    }
}

/// The key that plain numbers say.
pub(crate) fn key_of(key: &PlainKey) -> TimedKey
    ensures { result ≡ key_in key.now }
{
    TimedKey {
        what: symbol_of(key),
        begin_ms: key.begin_ms,
        end_ms: key.end_ms,
    }
}

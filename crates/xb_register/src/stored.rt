// The digits of an attempt, kept as two-out-of-five patterns.
ghost use Rattle.std.specs.Prelude.{◌≡◌, ◌<◌, ◌≤◌, [], ◌++◌, length, IsTrue, is_some, Some};
ghost use Rattle.std.specs.Option.{option_to_list};
ghost use Rattle.xb_model.specs.TwoOfFive.{digit_of_pattern};
ghost use Rattle.xb_register.specs.Stored.{digits_of};

use arrayvec::ArrayVec;
use std::marker::Model;
use xb_model::{Digit, MOST_PULSES, NUMBER_DIGITS, NumberDigits, Relays};

// The digits that patterns stand for.
fn digits_of(patterns: &[Relays]) -> NumberDigits
    requires { length patterns.now ≤ NUMBER_DIGITS }
    ensures { result ≡ digits_of patterns.now }
{
    let mut digits = NumberDigits::new();
    for pattern in patterns {
        if let Some(digit) = pattern.digit() {
            digits.push(digit);
        }
    }
    digits
}

// The pattern of a digit.
fn pattern_of(digit: Digit) -> Relays
    ensures { digit_of_pattern result ≡ Some digit }
{
    let pulses = if digit.get() == 0 {
        MOST_PULSES
    } else {
        digit.get()
    };
    Relays::of_count(pulses, false)
}

/// The digits of an attempt, each kept as the pattern of its five elements.
#[derive(Drop)]
pub(crate) struct StoredDigits {
    patterns: ArrayVec<Relays, NUMBER_DIGITS>,
}

// Clauses see the digits that the patterns stand for.
impl Model for StoredDigits {
    ghost use Rattle.std.specs.Prelude.{ℕ, List};
    ghost use Rattle.xb_register.specs.Stored.{digits_of, IsStored};

    ghost Value = { List ℕ };

    ghost view = { λ stored. digits_of stored.patterns.items };

    ghost invariant = { λ stored. IsStored stored.patterns.items };
}

impl StoredDigits {
    /// No digits.
    pub(crate) fn new() -> StoredDigits
        ensures { result ≡ [] }
    {
        StoredDigits {
            patterns: ArrayVec::new(),
        }
    }

    /// These digits.
    pub(crate) fn of(digits: &[Digit]) -> StoredDigits
        requires { length digits.now ≤ NUMBER_DIGITS }
        ensures { result ≡ digits.now }
    {
        let mut stored = StoredDigits::new();
        for digit in digits {
            stored.push(pattern_of(*digit));
        }
        stored
    }

    /// How many digits are stored.
    pub(crate) fn len(&self) -> u8
        ensures value { result ≡ length self.now }
        ensures within { result ≤ NUMBER_DIGITS }
    {
        self.patterns.len() as u8
    }

    /// Stores one digit more, by a pattern that is a digit.
    pub(crate) fn push(&mut self, pattern: Relays)
        requires room { length self.old < NUMBER_DIGITS }
        requires digit { IsTrue (is_some (digit_of_pattern pattern)) }
        ensures { self.new ≡ self.old ++ option_to_list (digit_of_pattern pattern) }
    {
        self.patterns.push(pattern);
    }

    /// The digits, read back from the patterns.
    pub(crate) fn read_back(&self) -> NumberDigits
        ensures { result ≡ self.now }
    {
        digits_of(&self.patterns)
    }
}

// Lists of digits, of fixed capacity.
ghost use Rattle.std.specs.Prelude.{◌≡◌, ℕ, ◌<◌, ◌≤◌, List, [], ◌∷◌, ◌++◌, ◌↔◌, length, IsSome, IfSome};

use crate::digit::Digit;
use arrayvec::ArrayVec;
use std::marker::Model;

/// The most digits of a dialled number.
pub const NUMBER_DIGITS: usize = 10;

/// The most digits that a route puts before a number.
pub const PREFIX_DIGITS: usize = 8;

/// The most digits of a keying: those of a prefix, then those of a number.
pub const KEY_DIGITS: usize = PREFIX_DIGITS + NUMBER_DIGITS;

/// A list of at most `CAPACITY` digits, which takes no memory of its own.
#[derive(Drop)]
pub struct DigitList<const CAPACITY: usize> {
    digits: ArrayVec<Digit, CAPACITY>,
}

/// The digits of a dialled number.
pub type NumberDigits = DigitList<NUMBER_DIGITS>;

/// The digits of a keying.
pub type KeyDigits = DigitList<KEY_DIGITS>;

/// The digits that a route puts before a number.
pub type PrefixDigits = DigitList<PREFIX_DIGITS>;

impl<const CAPACITY: usize> Model for DigitList<CAPACITY> {
    ghost use Rattle.std.specs.Prelude.{ℕ, List, ◌≤◌, length};

    ghost Value = { List ℕ };

    ghost view = { λ list. list.digits.items };

    ghost invariant = { λ list. length list.digits.items ≤ CAPACITY };
}

impl<const CAPACITY: usize> DigitList<CAPACITY> {
    /// No digits.
    pub fn new() -> Self
        ensures { result ≡ [] }
    {
        DigitList {
            digits: ArrayVec::new(),
        }
    }

    /// The list of these digits; `None` over the capacity.
    pub fn of(digits: &[Digit]) -> Option<Self>
        ensures variant { IsSome result ↔ (length digits.now ≤ CAPACITY) }
        ensures value { IfSome result (λ list. list ≡ digits.now) }
    {
        if digits.len() > CAPACITY {
            return None;
        }
        let mut list = DigitList::new();
        for digit in digits {
            list.push(*digit);
        }
        Some(list)
    }

    /// The digits, in order.
    pub fn digits(&self) -> &[Digit]
        ensures value { result.now ≡ self.now }
        ensures within { length self.now ≤ CAPACITY }
    {
        &self.digits
    }

    /// One digit more, after the others.
    pub fn push(&mut self, digit: Digit)
        requires { length self.old < CAPACITY }
        ensures { self.new ≡ self.old ++ digit ∷ [] }
    {
        self.digits.push(digit);
    }
}

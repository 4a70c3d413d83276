// Digits.
ghost use Rattle.std.specs.Prelude.{◌≡◌, ℕ, ◌<◌, ◌↔◌, IsSome, IfSome, decimal};
ghost use Rattle.xb_model.specs.Digits.{digit_of_ascii};

use std::marker::Model;

/// How many digits there are.
pub const DIGITS: u8 = 10;

/// A digit, 0 to 9.
#[derive(Clone, Copy, Debug, PartialEq, Eq)]
pub struct Digit {
    value: u8,
}

impl Model for Digit {
    ghost use Rattle.std.specs.Prelude.{ℕ, ◌<◌};
    ghost use Rattle.xb_model.specs.declared.digit.TheConstants.{DIGITS};

    ghost Value = { ℕ };

    ghost view = { λ d. d.value };

    ghost invariant = { λ d. d.value < DIGITS };

    ghost inverse = { λ n. record { value = n } };
}

impl Digit {
    /// The digit of this value; `None` over 9.
    pub fn new(value: u8) -> Option<Digit>
        ensures variant { IsSome result ↔ (value < DIGITS) }
        ensures value { IfSome result (λ d. d ≡ value) }
    {
        if value < DIGITS {
            Some(Digit { value })
        } else {
            None
        }
    }

    /// The digit that an ASCII character is; `None` of any other byte.
    pub fn from_ascii(byte: u8) -> Option<Digit>
        ensures { result ≡ digit_of_ascii byte }
    {
        match byte {
            b'0'..=b'9' => Digit::new(byte - b'0'),
            _ => None,
        }
    }

    /// The character that writes it, `0` to `9`.
    pub fn name(self) -> &'static str
        ensures { result.now ≡ decimal self }
    {
        match self.get() {
            0 => "0",
            1 => "1",
            2 => "2",
            3 => "3",
            4 => "4",
            5 => "5",
            6 => "6",
            7 => "7",
            8 => "8",
            _ => "9",
        }
    }

    /// The digit's value.
    pub fn get(self) -> u8
        ensures value { result ≡ self }
        ensures below { result < DIGITS }
    {
        self.value
    }
}

impl Default for Digit {
    ghost is_default = { λ d. d ≡ 0 };

    fn default() -> Digit {
        Digit { value: 0 }
    }
}

// Line numbers.
ghost use Rattle.std.specs.Prelude.{◌≡◌, ℕ, ◌<◌, ◌↔◌, IsSome, IfSome, None, Some, if◌then◌else◌, nat_lt};

use std::marker::Model;

/// How many lines the office has.
pub const LINES: u16 = 10_000;

/// A line of the office, 0 to 9999.
#[derive(Clone, Copy, Debug, PartialEq, Eq)]
pub struct LineNo {
    number: u16,
}

impl Model for LineNo {
    ghost use Rattle.std.specs.Prelude.{ℕ, ◌<◌};
    ghost use Rattle.xb_model.specs.declared.line.TheConstants.{LINES};

    ghost Value = { ℕ };

    ghost view = { λ l. l.number };

    ghost invariant = { λ l. l.number < LINES };

    ghost inverse = { λ n. record { number = n } };
}

impl LineNo {
    /// The line of this number; `None` over 9999.
    pub fn new(number: u16) -> Option<LineNo>
        ensures variant { IsSome result ↔ (number < LINES) }
        ensures value { IfSome result (λ l. l ≡ number) }
    {
        if number < LINES {
            Some(LineNo { number })
        } else {
            None
        }
    }

    /// The line of a number that somebody wrote; `None` over 9999.
    pub fn of_number(number: u32) -> Option<LineNo>
        ensures { result ≡ (if nat_lt number LINES then Some number else None) }
    {
        if number < u32::from(LINES) {
            LineNo::new(number as u16)
        } else {
            None
        }
    }

    /// The line's number.
    pub fn get(self) -> u16
        ensures value { result ≡ self }
        ensures below { result < LINES }
    {
        self.number
    }
}

impl Default for LineNo {
    ghost is_default = { λ l. l ≡ 0 };

    fn default() -> LineNo {
        LineNo { number: 0 }
    }
}

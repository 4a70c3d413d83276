// Why a text gives no calls.

use crate::told_field::ToldField;
use crate::wrong_byte::WrongByte;
use std::fmt;
use thiserror::Error;

/// Why a text gives no calls: the first fault, with its text line, counted from 1.
#[derive(Debug, Drop, Error)]
pub enum CallFault {
    /// What stands before the first blank that follows anything is not 1 to 4 digits. It is told (`ToldField`).
    Line(u32, ToldField),
    /// After the line stands a byte that is no digit, blank or hyphen. The first is told (`WrongByte`).
    Digit(u32, WrongByte),
    /// There is no digit.
    NoDigits(u32),
    /// The number ends before it is complete.
    Unfinished(u32),
    /// The number goes on after it is complete.
    GoesOn(u32),
    /// Memory ran out.
    NoMemory,
}

impl fmt::Display for CallFault {
    ghost use Rattle.std.specs.Prelude.{Some};
    ghost use Rattle.xb_calls.specs.FaultTexts.{call_text};

    ghost output = { λ fault. Some (call_text fault) };

    fn fmt<W: fmt::Write>(&self, f: &mut fmt::Formatter<W>) -> fmt::Result {
        match self {
            CallFault::Line(number, field) => write!(
                f,
                "text line {number}: \"{field}\" is no line of 0 to 9999"
            ),
            CallFault::Digit(number, byte) => write!(
                f,
                "text line {number} has a wrong digit {byte}"
            ),
            CallFault::NoDigits(number) => write!(f, "text line {number} has no digits"),
            CallFault::Unfinished(number) => write!(
                f,
                "text line {number} has a number that is not complete"
            ),
            CallFault::GoesOn(number) => write!(
                f,
                "text line {number} has a number that goes on after it is complete"
            ),
            CallFault::NoMemory => f.write_str("out of memory"),
        }
    }
}

// Why a text is no number, and why no number is routed.
ghost use Rattle.std.specs.Prelude.{◌≡◌};

use std::fmt;
use thiserror::Error;
use xb_calls::WrongByte;
use xb_command::OpenFault;
use xb_outgoing::{OutgoingFault, TableFault};

/// Why a text is no number.
#[derive(Clone, Copy, Debug, PartialEq, Eq, Error)]
pub enum NumberFault {
    /// A character is no digit, no letter of a dial, no blank and no hyphen. The first byte of the first is told.
    Character(WrongByte),
    /// There is no digit.
    NoDigits,
    /// Memory ran out.
    NoMemory,
}

impl fmt::Display for NumberFault {
    ghost use Rattle.std.specs.Prelude.{Some};
    ghost use Rattle.xb_route.specs.FaultTexts.{number_text};

    ghost output = { λ fault. Some (number_text fault) };

    fn fmt<W: fmt::Write>(&self, f: &mut fmt::Formatter<W>) -> fmt::Result {
        match self {
            NumberFault::Character(byte) => write!(f, "has a wrong character {byte}"),
            NumberFault::NoDigits => f.write_str("has no digits"),
            NumberFault::NoMemory => f.write_str("out of memory"),
        }
    }
}

/// Why no number is routed. The table comes first, then the numbers, and then the writing: a fault is told only where
/// those before it have none. Memory may run out at any of them, which is always `NoMemory`.
#[derive(Debug, Drop, Error)]
pub enum RoutingFault<'a> {
    /// The file of the table could not be read, or is no text.
    File(OpenFault<'a>),
    /// The table is refused.
    Table(OutgoingFault),
    /// The word of this place among the numbers, from 1, is no number.
    Word(usize, NumberFault),
    /// A read of the numbers failed, an interrupted one too.
    Read,
    /// The text of the numbers has more than 16,777,216 bytes.
    TooLong,
    /// The input has no number: nothing, blanks alone or a comment stands in each of its text lines.
    NoNumbers,
    /// This text line, from 1, is no number.
    TextLine(usize, NumberFault),
    /// Memory ran out.
    NoMemory,
    /// A write or the flush failed, or a write took no byte. The beginning of the lines was written.
    Write,
}

impl<'a> fmt::Display for RoutingFault<'a> {
    ghost use Rattle.xb_route.specs.FaultTexts.{routing_text};

    ghost output = { routing_text };

    fn fmt<W: fmt::Write>(&self, f: &mut fmt::Formatter<W>) -> fmt::Result {
        match self {
            RoutingFault::File(fault) => write!(f, "the route table could not be read: {fault}"),
            RoutingFault::Table(fault) => write!(f, "route table: {fault}"),
            RoutingFault::Word(number, fault) => write!(f, "number {number} {fault}"),
            RoutingFault::Read => f.write_str("the numbers could not be read"),
            RoutingFault::TooLong => f.write_str("the numbers are longer than 16777216 bytes"),
            RoutingFault::NoNumbers => f.write_str("there are no numbers"),
            RoutingFault::TextLine(number, fault) => write!(f, "text line {number} {fault}"),
            RoutingFault::NoMemory => f.write_str("out of memory"),
            RoutingFault::Write => f.write_str("the lines could not be written"),
        }
    }
}

impl<'a> From<TableFault<'a>> for RoutingFault<'a> {
    ghost use Rattle.xb_route.specs.Routing.{of_table};

    ghost from_gives = { λ fault e. e ≡ of_table fault };

    fn from(fault: TableFault<'a>) -> RoutingFault<'a> {
        match fault {
            TableFault::File(error) => RoutingFault::File(error),
            TableFault::Text(fault) => RoutingFault::Table(fault),
            TableFault::NoMemory => RoutingFault::NoMemory,
        }
    }
}

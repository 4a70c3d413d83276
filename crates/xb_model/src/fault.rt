// Faults of loop rows.
use std::fmt;
use thiserror::Error;

/// Why loop rows are refused. A number is that of the record, the first after the
/// header being 1.
#[derive(Clone, Copy, Debug, PartialEq, Eq, Error)]
pub enum RowFault {
    /// A read failed, an interrupted one too, or the reader had not ended after 2^64 - 1 reads.
    Read,
    /// There is no record, or the first is not the header.
    Header,
    /// The record has not three fields.
    Fields(u64),
    /// The line is not 1 to 4 ASCII digits.
    Line(u64),
    /// The state is not `M`, `B` or `C`.
    Contact(u64),
    /// The time is not 1 to 8 ASCII digits of at most 86,400,000, or not 0 in a close.
    Ms(u64),
    /// More than 1,000,000 records follow the header.
    TooMany,
    /// Memory ran out.
    NoMemory,
}

impl fmt::Display for RowFault {
    ghost use Rattle.std.specs.Prelude.{Some};
    ghost use Rattle.xb_model.specs.FaultTexts.{row_text};

    ghost output = { λ fault. Some (row_text fault) };

    fn fmt<W: fmt::Write>(&self, f: &mut fmt::Formatter<W>) -> fmt::Result {
        match self {
            RowFault::Read => f.write_str("the rows could not be read"),
            RowFault::Header => f.write_str("the header is not line,state,ms"),
            RowFault::Fields(number) => write!(f, "record {number} has not three fields"),
            RowFault::Line(number) => write!(f, "record {number} has a wrong line"),
            RowFault::Contact(number) => write!(f, "record {number} has a wrong state"),
            RowFault::Ms(number) => write!(f, "record {number} has a wrong ms"),
            RowFault::TooMany => f.write_str("more than 1000000 records"),
            RowFault::NoMemory => f.write_str("out of memory"),
        }
    }
}

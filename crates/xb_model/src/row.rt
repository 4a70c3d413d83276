// The rows of loop records.
ghost use Rattle.std.specs.Prelude.{◌≡◌, ◌↔◌, IsSome, IfSome};
ghost use Rattle.xb_model.specs.Rows.{IsRow, close_row, row_of};

use crate::line::LineNo;
use std::marker::Model;

/// The longest time that one row gives, in ms: a day.
pub const GREATEST_MS: u32 = 86_400_000;

/// What a line's loop does in a row.
#[derive(Clone, Copy, Debug, PartialEq, Eq)]
pub enum Contact {
    /// The loop is closed.
    Make,
    /// The loop is open.
    Brk,
    /// The line's record ends.
    Close,
}

/// One row of loop records: a line, what its loop does, and for how many ms.
#[derive(Clone, Copy, Debug, PartialEq, Eq)]
pub struct Row {
    line: LineNo,
    contact: Contact,
    ms: u32,
}

impl Model for Row {
    ghost use Rattle.xb_model.specs.Rows.{LoopRow, IsRow};

    ghost Value = { LoopRow };

    ghost view = { λ row. record { line = row.line; contact = row.contact; ms = row.ms } };

    ghost invariant = { λ row. IsRow row.contact row.ms };

    ghost inverse = { λ row. record { line = row.line; contact = row.contact; ms = row.ms } };
}

impl Row {
    /// The row of these three; `None` where `ms` is over 86,400,000, or a close has `ms` other
    /// than 0.
    pub fn new(line: LineNo, contact: Contact, ms: u32) -> Option<Row>
        ensures variant { IsSome result ↔ IsRow contact ms }
        ensures value { IfSome result (λ row. row ≡ row_of line contact ms) }
    {
        if ms > GREATEST_MS || (contact == Contact::Close && ms != 0) {
            None
        } else {
            Some(Row { line, contact, ms })
        }
    }

    /// The row that ends the record of a line.
    pub fn close(line: LineNo) -> Row
        ensures { result ≡ close_row line }
    {
        Row {
            line,
            contact: Contact::Close,
            ms: 0,
        }
    }

    /// The row's line.
    pub fn line(&self) -> LineNo
        ensures { result ≡ self.now.line }
    {
        self.line
    }

    /// What the line's loop does.
    pub fn contact(&self) -> Contact
        ensures { result ≡ self.now.contact }
    {
        self.contact
    }

    /// For how long, in ms.
    pub fn ms(&self) -> u32
        ensures value { result ≡ self.now.ms }
        ensures lawful { IsRow self.now.contact result }
    {
        self.ms
    }
}

// Rows as plain numbers.
ghost use Rattle.std.specs.Prelude.{◌≡◌};
ghost use Rattle.xb_structs.specs.Rows.{line_in, contact_in, row_in};

use crate::refusal::Refusal;
use xb_model::{Contact, LineNo, Row};

/// A row of loop records.
#[repr(C)]
#[derive(Clone, Copy)]
pub struct PlainRow {
    /// The line, 0 to 9999.
    pub line: u32,
    /// What its loop does, by the letter `M`, `B` or `C`.
    pub state: u32,
    /// For how many ms.
    pub ms: u32,
}

/// The line of a number.
pub(crate) fn line_of(number: u32) -> Option<LineNo>
    ensures { result ≡ line_in number }
{
    LineNo::new(u16::try_from(number).ok()?)
}

// What the loop does, by its letter.
fn contact_of(letter: u32) -> Option<Contact>
    ensures { result ≡ contact_in letter }
{
    match letter {
        77 => Some(Contact::Make),
        66 => Some(Contact::Brk),
        67 => Some(Contact::Close),
        _ => None,
    }
}

/// The row that three numbers say, or the first that is wrong.
pub(crate) fn row_of(row: &PlainRow) -> Result<Row, Refusal>
    ensures { result ≡ row_in row.now }
{
    let Some(line) = line_of(row.line) else {
        return Err(Refusal::Line);
    };
    let Some(contact) = contact_of(row.state) else {
        return Err(Refusal::State);
    };
    match Row::new(line, contact, row.ms) {
        Some(row) => Ok(row),
        None => Err(Refusal::Ms),
    }
}

// A record that stands in a text line of its own, without a header before it, read in flat memory.
ghost use Rattle.std.specs.Prelude.{◌≡◌, ℕ, ◌++◌, [], ◌∷◌, List, take};
ghost use Rattle.xb_rows.specs.TextLines.{fields_with, row_of_line, row_said, some_row};
ghost use Rattle.xb_rows.specs.declared.text_line.TheConstants.{KEPT_BYTES};

use crate::machine::{Action, State, ends_record, step};
use crate::record::{MS_DIGITS, contact_of};
use arrayvec::ArrayVec;
use xb_model::{Contact, LineNo, Row, RowFault, field_number, line_of};

// How many bytes are kept of a field: a field of a row has fewer.
const KEPT_BYTES: usize = 9;

// The beginning of a field.
type FieldStart = ArrayVec<u8, KEPT_BYTES>;

// What the fields of a record say, up to one of them.
#[derive(Clone, Copy)]
pub(crate) enum FieldsSaid {
    Nothing,
    Line(Option<LineNo>),
    State(Option<LineNo>, Option<Contact>),
    Ms(Option<LineNo>, Option<Contact>, Option<u32>),
    // There are more than three.
    TooMany,
}

impl FieldsSaid {
    // What they say with one field more.
    fn with(self, field: &[u8]) -> FieldsSaid
        ensures { result ≡ fields_with self field.now }
    {
        match self {
            FieldsSaid::Nothing => FieldsSaid::Line(line_of(field)),
            FieldsSaid::Line(line) => FieldsSaid::State(line, contact_of(field)),
            FieldsSaid::State(line, contact) => {
                FieldsSaid::Ms(line, contact, field_number(MS_DIGITS, field))
            }
            FieldsSaid::Ms(..) | FieldsSaid::TooMany => FieldsSaid::TooMany,
        }
    }

    // The row of record `n`, by all its fields, or its first fault.
    fn row(self, n: u64) -> Result<Row, RowFault>
        ensures { result ≡ row_said n self }
    {
        match self {
            FieldsSaid::Ms(line, contact, ms) => {
                let line = line.ok_or(RowFault::Line(n))?;
                let contact = contact.ok_or(RowFault::Contact(n))?;
                let ms = ms.ok_or(RowFault::Ms(n))?;
                Row::new(line, contact, ms).ok_or(RowFault::Ms(n))
            }
            FieldsSaid::Nothing
            | FieldsSaid::Line(_)
            | FieldsSaid::State(..)
            | FieldsSaid::TooMany => Err(RowFault::Fields(n)),
        }
    }

    // The row of record `n`, which ends with this field.
    fn end(self, n: u64, field: &[u8]) -> Result<Option<Row>, RowFault>
        ensures { result ≡ some_row (row_said n (fields_with self field.now)) }
    {
        match self.with(field).row(n) {
            Ok(row) => Ok(Some(row)),
            Err(fault) => Err(fault),
        }
    }
}

// Keeps a byte more of a field, as long as there is room.
fn keep(field: &mut FieldStart, byte: u8)
    ensures { (whole : List ℕ) → field.old.items ≡ take KEPT_BYTES whole
        → field.new.items ≡ take KEPT_BYTES (whole ++ byte ∷ []) }
{
    if !field.is_full() {
        field.push(byte);
    }
}

/// The row of the first record of a text without a header, as record `n` of the rows; `None` where the text has
/// no record. `Fields(n)`, `Line(n)`, `Contact(n)` or `Ms(n)` is the first fault of a record that is no row. It is what
/// `Scan` gives first of a text of the header and this text (`laws::lines_are_records`). It takes no memory.
pub fn row_of_line(n: u64, text: &[u8]) -> Result<Option<Row>, RowFault>
    ensures { result ≡ row_of_line n text.now }
{
    let mut state = State::StartRecord;
    let mut said = FieldsSaid::Nothing;
    let mut field = FieldStart::new();
    for byte in text {
        let (next, action) = step(state, *byte);
        state = next;
        match action {
            Action::Skip => {}
            Action::Copy => keep(&mut field, *byte),
            Action::EndField => {
                said = said.with(&field);
                field.clear();
            }
            Action::EndRecord => return said.end(n, &field),
        }
    }
    if ends_record(state) {
        said.end(n, &field)
    } else {
        Ok(None)
    }
}

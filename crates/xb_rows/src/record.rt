// What one record of the rows' text writes.
ghost use Rattle.std.specs.Prelude.{◌≡◌, Some, option_map};
ghost use Rattle.csv.specs.Records.{fields_of};
ghost use Rattle.xb_rows.specs.RowTexts.{contact_of, is_header, row_of_fields, three_fields};

use csv::ByteRecord;
use xb_model::{Contact, Row, RowFault, field_number, line_of};

// How many fields a row has.
const ROW_FIELDS: usize = 3;

// The most digits of a time in ms.
pub(crate) const MS_DIGITS: usize = 8;

// What the loop does, as a field names it.
pub(crate) fn contact_of(field: &[u8]) -> Option<Contact>
    ensures { result ≡ contact_of field.now }
{
    match field {
        [b'M'] => Some(Contact::Make),
        [b'B'] => Some(Contact::Brk),
        [b'C'] => Some(Contact::Close),
        _ => None,
    }
}

// Three fields of a record: line, state, ms.
pub(crate) type ThreeFields<'a> = (&'a [u8], &'a [u8], &'a [u8]);

// The three fields of a record that has three.
pub(crate) fn three_fields(fields: &ByteRecord) -> Option<ThreeFields<'_>>
    ensures { option_map (λ t. (t.0.now, t.1.now, t.2.now)) result ≡ three_fields (fields_of fields.now) }
{
    if fields.len() != ROW_FIELDS {
        return None;
    }
    let line = fields.get(0)?;
    let state = fields.get(1)?;
    let ms = fields.get(2)?;
    Some((line, state, ms))
}

// The row that record `n` writes in its three fields, or the first fault of these.
fn row_of_fields(n: u64, line: &[u8], state: &[u8], ms: &[u8]) -> Result<Row, RowFault>
    ensures { result ≡ row_of_fields n (Some (line.now, state.now, ms.now)) }
{
    let line = line_of(line).ok_or(RowFault::Line(n))?;
    let contact = contact_of(state).ok_or(RowFault::Contact(n))?;
    let ms = field_number(MS_DIGITS, ms).ok_or(RowFault::Ms(n))?;
    Row::new(line, contact, ms).ok_or(RowFault::Ms(n))
}

// The row that record `n` writes, by the three fields that it has, or its first fault, in the order fields,
// line, state, ms.
pub(crate) fn parse_row(n: u64, fields: Option<ThreeFields>) -> Result<Row, RowFault>
    ensures { result ≡ row_of_fields n (option_map (λ t. (t.0.now, t.1.now, t.2.now)) fields.entry) }
{
    let (line, state, ms) = fields.ok_or(RowFault::Fields(n))?;
    row_of_fields(n, line, state, ms)
}

// Whether a record that has these three fields is the header.
pub(crate) fn is_header(fields: Option<ThreeFields>) -> bool
    ensures { result ≡ is_header (option_map (λ t. (t.0.now, t.1.now, t.2.now)) fields.entry) }
{
    match fields {
        Some((line, state, ms)) => {
            line == b"line".as_slice() && state == b"state".as_slice() && ms == b"ms".as_slice()
        }
        None => false,
    }
}

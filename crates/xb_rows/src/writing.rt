// The text of rows.
ghost use Rattle.std.specs.Prelude.{◌≡◌, ◌++◌, ◌≤◌, IfOk, None, codes, length, string_bytes};
ghost use Rattle.xb_rows.specs.declared.scan.TheConstants.{MOST_RECORDS};
ghost use Rattle.xb_rows.specs.RowTexts.{rest_of_text, rows_and_stop};
ghost use Rattle.xb_rows.specs.WrittenRows.{IsLawfulRow, contact_text, record_text, text_of_rows};

use arrayvec::ArrayString;
use itoa::Buffer;
use std::alloc::{AllocError, Global};
use xb_model::{Contact, Row};

/// The most bytes that the record of a row has: five digits of a line and ten of a time at most, a letter,
/// two commas, and an LF.
pub const MOST_ROW_BYTES: usize = 19;

// The letter of a contact, between commas.
fn contact_between(contact: Contact) -> &'static str
    ensures { result.now ≡ codes "," ++ contact_text contact ++ codes "," }
{
    match contact {
        Contact::Make => ",M,",
        Contact::Brk => ",B,",
        Contact::Close => ",C,",
    }
}

/// The record of a row, its LF with it.
pub fn record_of(row: Row) -> ArrayString<MOST_ROW_BYTES>
    ensures text { result.bytes ≡ record_text row }
    ensures lawful { IsLawfulRow row }
{
    let mut digits = Buffer::new();
    let mut record = ArrayString::new();
    record.push_str(digits.format(row.line().get()));
    record.push_str(contact_between(row.contact()));
    record.push_str(digits.format(row.ms()));
    record.push_str("\n");
    record
}

/// The text of rows: the header, and a record for each row. It is read as these rows, where they are
/// no more than the 1,000,000 that a deck may have. `Err` says that memory ran out.
pub fn text_of_rows(alloc: Global, rows: &[Row]) -> Result<String, AllocError>
    ensures text { IfOk result (λ text. string_bytes text ≡ text_of_rows rows.now) }
    ensures read { length rows.now ≤ MOST_RECORDS →
        IfOk result (λ text. rest_of_text (string_bytes text) ≡ rows_and_stop rows.now None) }
{
    let mut text = String::new(alloc);
    write!(text, "line,state,ms\n")?;
    for row in rows {
        text.push_str(record_of(*row).as_str())?;
    }
    Ok(text)
}

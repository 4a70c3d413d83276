// Records of the plain form, read directly of the bytes of a text.
ghost use Rattle.std.specs.Prelude.{◌≡◌, ◌≤◌, ◌<◌, ◌^◌, ◌∷◌, IfSome};
ghost use Rattle.xb_rows.specs.declared.record.TheConstants.{MS_DIGITS};
ghost use Rattle.xb_rows.specs.Plain.{BeginsWith, BeginsWithContact, BeginsWithNumber, IsPlainRow};
ghost use Rattle.xb_rows.specs.WrittenRows.{header};

use crate::record::{MS_DIGITS, contact_of};
use xb_model::{Contact, Digit, LINE_DIGITS, LineNo, Row};

// The text after a header of the plain form.
pub(crate) fn after_header(text: &[u8]) -> Option<&[u8]>
    ensures { IfSome result (λ rest. BeginsWith text.now header rest.now) }
{
    text.strip_prefix(b"line,state,ms\n".as_slice())
}

// A row of the plain form, and the text after it.
#[derive(Clone, Copy)]
pub(crate) struct PlainRow<'a> {
    pub(crate) row: Row,
    pub(crate) rest: &'a [u8],
}

// The number of 1 to `most` digits that a text begins with, and what follows it.
fn leading_number(most: usize, text: &[u8]) -> Option<(u32, &[u8])>
    requires { most ≤ MS_DIGITS }
    ensures number { IfSome result (λ found. BeginsWithNumber most text.now found.0 found.1.now) }
    ensures bound { IfSome result (λ found. found.0 < 10 ^ most) }
{
    let mut number: u32 = 0;
    let mut count = 0;
    while count < most && count < text.len() {
        let Some(digit) = Digit::from_ascii(text[count]) else {
            break;
        };
        number = number * 10 + u32::from(digit.get());
        count += 1;
    }
    if count == 0 {
        None
    } else {
        Some((number, &text[count..]))
    }
}

// What the loop does by the letter that a text begins with, between two commas, and what follows them.
fn leading_contact(text: &[u8]) -> Option<(Contact, &[u8])>
    ensures { IfSome result (λ found. BeginsWithContact text.now found.0 found.1.now) }
{
    match text {
        [b',', _, b',', rest @ ..] => Some((contact_of(&text[1..2])?, rest)),
        _ => None,
    }
}

// What follows the first byte of a text, where that is an LF.
fn after_lf(text: &[u8]) -> Option<&[u8]>
    ensures { IfSome result (λ rest. text.now ≡ 10 ∷ rest.now) }
{
    match text {
        [b'\n', rest @ ..] => Some(rest),
        _ => None,
    }
}

// The row of a first record of the plain form, which is that of three fields without a quote, and the text
// after it; `None` for any other record.
pub(crate) fn plain_row(text: &[u8]) -> Option<PlainRow<'_>>
    ensures { IfSome result (λ plain. IsPlainRow text.now plain.row plain.rest.now) }
{
    let (line, rest) = leading_number(LINE_DIGITS, text)?;
    let (contact, rest) = leading_contact(rest)?;
    let (ms, rest) = leading_number(MS_DIGITS, rest)?;
    let rest = after_lf(rest)?;
    let row = Row::new(LineNo::new(line as u16)?, contact, ms)?;
    Some(PlainRow { row, rest })
}

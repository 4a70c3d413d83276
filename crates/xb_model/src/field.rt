// Numbers and lines, as the fields of texts write them.
ghost use Rattle.std.specs.Prelude.{◌≡◌, ◌≤◌, ◌<◌, ◌^◌, IfSome};
ghost use Rattle.xb_model.specs.declared.field.TheConstants.{FIELD_DIGITS};
ghost use Rattle.xb_model.specs.Fields.{field_number, line_of};

use crate::digit::Digit;
use crate::line::LineNo;

/// The most digits of a line in a text.
pub const LINE_DIGITS: usize = 4;

/// The most digits of any number that is read of a field.
pub const FIELD_DIGITS: usize = 8;

/// The number that a field of 1 to `most` ASCII digits writes, `most` being up to 8; `None` for any other
/// field.
pub fn field_number(most: usize, field: &[u8]) -> Option<u32>
    requires { most ≤ FIELD_DIGITS }
    ensures value { result ≡ field_number most field.now }
    ensures bound { IfSome result (λ n. n < 10 ^ most) }
{
    if field.is_empty() || field.len() > most {
        return None;
    }
    let mut number: u32 = 0;
    for byte in field {
        let digit = Digit::from_ascii(*byte)?;
        number = number * 10 + u32::from(digit.get());
    }
    Some(number)
}

/// The line that a field of 1 to 4 ASCII digits writes; `None` for any other field.
pub fn line_of(field: &[u8]) -> Option<LineNo>
    ensures { result ≡ line_of field.now }
{
    LineNo::new(field_number(LINE_DIGITS, field)? as u16)
}

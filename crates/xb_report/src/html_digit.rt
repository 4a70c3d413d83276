// The row of a digit.
ghost use Rattle.std.specs.Prelude.{◌≡◌, ◌++◌, OnOk, map, string_bytes};
ghost use Rattle.xb_heard.specs.Digits.{digit_in};
ghost use Rattle.xb_report.specs.Rows.{digit_row, digit_rows, remark_cell};

use crate::cells::{push_extent, push_number, push_tenths};
use crate::digit::push_name;
use crate::signs::push_marked_spoiler;
use crate::words::is_taken;
use std::alloc::{AllocError, Global};
use xb_heard::{DigitRow, HeardDigit, Remark, row_of};
use xb_model::{Dialled, Limits};

// The end of a cell, and the beginning of the next one.
const NEXT: &str = "</td><td>";

// Puts what is said of a digit after its figures.
fn push_remark(out: &mut String, limits: Limits, remark: Remark) -> Result<(), AllocError>
    ensures { OnOk result (string_bytes out.new ≡ string_bytes out.old ++ remark_cell limits remark) }
{
    match remark {
        Remark::Good => Ok(()),
        Remark::Spoiled(spoiler) => push_marked_spoiler(out, limits, spoiler),
        Remark::Ignored(None) => out.push_str("ignored"),
        Remark::Ignored(Some(spoiler)) => {
            out.push_str("ignored; ")?;
            push_marked_spoiler(out, limits, spoiler)
        }
    }
}

// Puts the row of a digit after the text.
fn push_digit(
    alloc: Global,
    out: &mut String,
    limits: Limits,
    row: DigitRow,
) -> Result<(), AllocError>
    ensures { OnOk result (string_bytes out.new ≡ string_bytes out.old ++ digit_row limits row) }
{
    out.push_str("<tr><td>")?;
    push_name(alloc, out, 7, row.name)?;
    out.push_str(NEXT)?;
    push_number(alloc, out, 0, row.pulses)?;
    out.push_str(NEXT)?;
    push_tenths(alloc, out, 0, row.speed)?;
    out.push_str(NEXT)?;
    push_tenths(alloc, out, 0, row.share)?;
    out.push_str(NEXT)?;
    push_extent(alloc, out, 0, row.breaks)?;
    out.push_str(NEXT)?;
    push_extent(alloc, out, 0, row.makes)?;
    out.push_str(NEXT)?;
    push_number(alloc, out, 0, row.pause)?;
    out.push_str(NEXT)?;
    push_remark(out, limits, row.remark)?;
    out.push_str("</td></tr>\n")
}

// Puts the rows of digits after the text.
pub(crate) fn push_digits(
    alloc: Global,
    out: &mut String,
    limits: Limits,
    outcome: &Dialled,
    digits: &[HeardDigit],
) -> Result<(), AllocError>
    ensures { OnOk result (string_bytes out.new
        ≡ string_bytes out.old ++ digit_rows limits outcome.now 0 (map digit_in digits.now)) }
{
    for (index, digit) in digits.iter().enumerate() {
        push_digit(alloc, out, limits, row_of(digit, is_taken(outcome, index)))?;
    }
    Ok(())
}

// The line of a digit.
ghost use Rattle.std.specs.Prelude.{◌≡◌, ◌++◌, OnOk, map, string_bytes};
ghost use Rattle.xb_heard.specs.Digits.{digit_in};
ghost use Rattle.xb_report.specs.Cells.{at_right};
ghost use Rattle.xb_report.specs.ReportTexts.{digit_text, digits_from, name_text, remark_text, table_text};

use crate::cells::{GAP, push_extent, push_number, push_right, push_tenths};
use crate::words::{is_taken, push_spoiler};
use std::alloc::{AllocError, Global};
use xb_heard::{DigitRow, HeardDigit, Remark, row_of};
use xb_model::{Dialled, Limits};

// Puts a digit at the right of a cell so wide, or x where it is spoiled.
pub(crate) fn push_name(
    alloc: Global,
    out: &mut String,
    width: usize,
    name: Option<u64>,
) -> Result<(), AllocError>
    ensures { OnOk result (string_bytes out.new ≡ string_bytes out.old ++ at_right width (name_text name)) }
{
    match name {
        Some(digit) => push_number(alloc, out, width, digit),
        None => push_right(out, width, "x"),
    }
}

// Puts what is said of a digit after its figures.
fn push_remark(out: &mut String, limits: Limits, remark: Remark) -> Result<(), AllocError>
    ensures { OnOk result (string_bytes out.new ≡ string_bytes out.old ++ remark_text limits remark) }
{
    match remark {
        Remark::Good => Ok(()),
        Remark::Spoiled(spoiler) => {
            out.push_str(GAP)?;
            push_spoiler(out, limits, spoiler)
        }
        Remark::Ignored(None) => out.push_str("  ignored"),
        Remark::Ignored(Some(spoiler)) => {
            out.push_str("  ignored; ")?;
            push_spoiler(out, limits, spoiler)
        }
    }
}

// Puts the line of a digit after the text.
fn push_digit(
    alloc: Global,
    out: &mut String,
    limits: Limits,
    row: DigitRow,
) -> Result<(), AllocError>
    ensures { OnOk result (string_bytes out.new ≡ string_bytes out.old ++ digit_text limits row) }
{
    out.push_str(GAP)?;
    push_name(alloc, out, 5, row.name)?;
    out.push_str(GAP)?;
    push_number(alloc, out, 6, row.pulses)?;
    out.push_str(GAP)?;
    push_tenths(alloc, out, 5, row.speed)?;
    out.push_str(GAP)?;
    push_tenths(alloc, out, 7, row.share)?;
    out.push_str(GAP)?;
    push_extent(alloc, out, 8, row.breaks)?;
    out.push_str(GAP)?;
    push_extent(alloc, out, 8, row.makes)?;
    out.push_str(GAP)?;
    push_number(alloc, out, 8, row.pause)?;
    push_remark(out, limits, row.remark)?;
    out.push_str("\n")
}

// Puts the lines of digits after the text.
fn push_digits(
    alloc: Global,
    out: &mut String,
    limits: Limits,
    outcome: &Dialled,
    digits: &[HeardDigit],
) -> Result<(), AllocError>
    ensures { OnOk result (string_bytes out.new
        ≡ string_bytes out.old ++ digits_from limits outcome.now 0 (map digit_in digits.now)) }
{
    for (index, digit) in digits.iter().enumerate() {
        push_digit(alloc, out, limits, row_of(digit, is_taken(outcome, index)))?;
    }
    Ok(())
}

// Puts the table of digits after the text, if there are any.
pub(crate) fn push_table(
    alloc: Global,
    out: &mut String,
    limits: Limits,
    outcome: &Dialled,
    digits: &[HeardDigit],
) -> Result<(), AllocError>
    ensures { OnOk result (string_bytes out.new
        ≡ string_bytes out.old ++ table_text limits outcome.now (map digit_in digits.now)) }
{
    if digits.is_empty() {
        return Ok(());
    }
    out.push_str("  digit  pulses    p/s  % break  break ms   make ms  pause ms\n")?;
    push_digits(alloc, out, limits, outcome, digits)
}

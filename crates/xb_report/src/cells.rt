// The cells of a table.
ghost use Rattle.std.specs.Prelude.{◌≡◌, ◌++◌, OnOk, decimal, string_bytes};
ghost use Rattle.xb_report.specs.Cells.{at_right, extent_text, tenths_or_dash};

use std::alloc::{AllocError, Global};
use xb_heard::Extent;

// What stands before each cell of a line.
pub(crate) const GAP: &str = "  ";

/// Puts a text at the right of a cell so many letters wide, after blanks; a longer one has a wider cell. `Err`
/// says that memory ran out.
pub fn push_right(out: &mut String, width: usize, text: &str) -> Result<(), AllocError>
    ensures { OnOk result (string_bytes out.new ≡ string_bytes out.old ++ at_right width text.now) }
{
    for _blank in 0..width.saturating_sub(text.len()) {
        out.push(' ')?;
    }
    out.push_str(text)
}

/// Puts a number in tenths after the text, as 10.0, or a dash. `Err` says that memory ran out.
pub fn push_figure(out: &mut String, tenths: Option<u128>) -> Result<(), AllocError>
    ensures { OnOk result (string_bytes out.new ≡ string_bytes out.old ++ tenths_or_dash tenths) }
{
    match tenths {
        Some(tenths) => {
            let whole = tenths / 10;
            let tenth = tenths % 10;
            write!(out, "{whole}.{tenth}")
        }
        None => out.push_str("-"),
    }
}

/// Puts a number at the right of a cell so many letters wide. `Err` says that memory ran out.
pub fn push_number(
    alloc: Global,
    out: &mut String,
    width: usize,
    number: u64,
) -> Result<(), AllocError>
    ensures { OnOk result (string_bytes out.new ≡ string_bytes out.old ++ at_right width (decimal number)) }
{
    let text = format!(in alloc; "{number}")?;
    push_right(out, width, &text)
}

/// Puts a number in tenths at the right of a cell so many letters wide, or a dash. `Err` says that memory ran
/// out.
pub fn push_tenths(
    alloc: Global,
    out: &mut String,
    width: usize,
    tenths: Option<u128>,
) -> Result<(), AllocError>
    ensures { OnOk result (string_bytes out.new
        ≡ string_bytes out.old ++ at_right width (tenths_or_dash tenths)) }
{
    let mut text = String::new(alloc);
    push_figure(&mut text, tenths)?;
    push_right(out, width, &text)
}

/// Puts what lies between two numbers at the right of a cell so many letters wide, or a dash. `Err` says that
/// memory ran out.
pub fn push_extent(
    alloc: Global,
    out: &mut String,
    width: usize,
    extent: Option<Extent>,
) -> Result<(), AllocError>
    ensures { OnOk result (string_bytes out.new
        ≡ string_bytes out.old ++ at_right width (extent_text extent)) }
{
    match extent {
        Some(Extent { least, most }) => {
            if least == most {
                push_number(alloc, out, width, least)
            } else {
                let text = format!(in alloc; "{least}-{most}")?;
                push_right(out, width, &text)
            }
        }
        None => push_right(out, width, "-"),
    }
}

// The cells of a line.
ghost use Rattle.std.specs.Prelude.{◌≡◌, ◌&&◌, bytes_eq, nat_lt, option_copied, slice_get};
ghost use Rattle.xb_csv.specs.Cells.{after, cell_number, cells_of, stands_after, trimmed};

use xb_text::first_piece;

/// A text without the blanks around it.
pub fn trimmed(text: &[u8]) -> &[u8]
    ensures { result.now ≡ trimmed text.now }
{
    text.trim_ascii()
}

/// What follows a text that a line begins with.
pub(crate) fn after<'a>(line: &'a [u8], beginning: &[u8]) -> Option<&'a [u8]>
    ensures { option_copied result ≡ after beginning.now line.now }
{
    if line.starts_with(beginning) {
        Some(&line[beginning.len()..])
    } else {
        None
    }
}

/// The cell of this number, counted from 0, of a line whose cells are parted by commas, without the blanks
/// around it.
#[tactic(auto, using(crate::proofs::CellLemmas::cell_first, crate::proofs::CellLemmas::cell_later, crate::proofs::CellLemmas::cell_none))]
pub fn cell_at(line: &[u8], number: usize) -> Option<&[u8]>
    ensures { option_copied result ≡ slice_get (cells_of line.now) number }
{
    let mut rest = line;
    for _step in 0..number {
        let (_, later) = first_piece(b',', rest);
        match later {
            Some(later) => rest = later,
            None => return None,
        }
    }
    let (cell, _) = first_piece(b',', rest);
    Some(trimmed(cell))
}

/// The number of the first cell that is this text, among the first 65,535.
pub(crate) fn cell_of(line: &[u8], text: &[u8]) -> Option<u16>
    ensures { result ≡ cell_number text.now (cells_of line.now) }
{
    let mut rest = line;
    for number in 0..u16::MAX {
        let (cell, later) = first_piece(b',', rest);
        if trimmed(cell) == text {
            return Some(number);
        }
        match later {
            Some(later) => rest = later,
            None => return None,
        }
    }
    None
}

// Whether a cell with the number `step` comes after the one of this number, and is this text.
fn is_later(step: u16, number: u16, cell: &[u8], text: &[u8]) -> bool
    ensures { result ≡ (nat_lt number step && bytes_eq (trimmed cell.now) text.now) }
{
    step > number && trimmed(cell) == text
}

/// Whether a cell after the one of this number is this text too, among the first 65,535.
pub(crate) fn stands_after(line: &[u8], text: &[u8], number: u16) -> bool
    ensures { result ≡ stands_after text.now number (cells_of line.now) }
{
    let mut rest = line;
    for step in 0..u16::MAX {
        let (cell, later) = first_piece(b',', rest);
        if is_later(step, number, cell, text) {
            return true;
        }
        match later {
            Some(later) => rest = later,
            None => return false,
        }
    }
    false
}

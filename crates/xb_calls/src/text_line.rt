// What texts of calls and of numbers share: one thing in each text line.
ghost use Rattle.std.specs.Prelude.{◌≡◌, ◌≤◌, ◌++◌, OnOk, length};
ghost use Rattle.std.specs.Option.{option_to_list};
ghost use Rattle.std.specs.Str.Lines.{strip_carriage_return};
ghost use Rattle.csv.specs.Reading.{strip_bom};
ghost use Rattle.xb_calls.specs.Lists.{after_blanks, is_blank, is_grouping, is_passed_over};

use std::alloc::AllocError;
use xb_model::Digit;

/// A text without the byte order mark that it may begin with.
#[tactic(auto, unfolding(csv::specs::Reading::strip_bom))]
pub fn without_mark(text: &[u8]) -> &[u8]
    ensures text { result.now ≡ strip_bom text.now }
    ensures short { length result.now ≤ length text.now }
{
    match text {
        [0xEF, 0xBB, 0xBF, rest @ ..] => rest,
        _ => text,
    }
}

/// A text line without one CR at its end.
pub fn strip_carriage_return(line: &[u8]) -> &[u8]
    ensures { result.now ≡ strip_carriage_return line.now }
{
    match line {
        [rest @ .., b'\r'] => rest,
        _ => line,
    }
}

/// Whether a byte is a blank: a space or a tab.
pub(crate) fn is_blank(byte: u8) -> bool
    ensures { result ≡ is_blank byte }
{
    byte == b' ' || byte == b'\t'
}

/// Whether a byte groups digits: a blank or a hyphen.
pub fn is_grouping(byte: u8) -> bool
    ensures { result ≡ is_grouping byte }
{
    is_blank(byte) || byte == b'-'
}

/// What follows the blanks at the beginning of a text line.
pub(crate) fn after_blanks(line: &[u8]) -> &[u8]
    ensures { result.now ≡ after_blanks line.now }
{
    let mut left = line;
    while let [first, rest @ ..] = left {
        if !is_blank(*first) {
            break;
        }
        left = rest;
    }
    left
}

/// Whether a text line has nothing but blanks, or is a comment, which begins with `#` after them.
pub fn is_passed_over(line: &[u8]) -> bool
    ensures { result ≡ is_passed_over line.now }
{
    match after_blanks(line) {
        [] => true,
        [first, ..] => *first == b'#',
    }
}

/// Puts a digit after the others, if there is one.
pub fn add_digit(digits: &mut Vec<Digit>, digit: Option<Digit>) -> Result<(), AllocError>
    ensures { OnOk result (digits.new.items ≡ digits.old.items ++ option_to_list digit) }
{
    if let Some(digit) = digit {
        digits.push(digit)?;
    }
    Ok(())
}

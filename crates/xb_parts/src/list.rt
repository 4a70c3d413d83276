// The list of parts.
ghost use Rattle.std.specs.Prelude.{◌≡◌, ◌++◌, IfErr, IfOk, OnOk, Some, drop, option_copied, string_bytes};
ghost use Rattle.xb_parts.specs.Lists.{IsListFault, deck_name, list_of, listed_part, range_of_words, ranges_of_list, space, word_at};
ghost use Rattle.xb_text.specs.Pieces.{pieces, pieces_left};

use crate::range::LineRange;
use std::alloc::{AllocError, AllocFailed, Global};
use std::fmt;
use thiserror::Error;
use xb_model::line_of;
use xb_text::first_piece;

/// Why a text gives no ranges.
#[derive(Clone, Copy, Debug, PartialEq, Eq, Error)]
pub enum ListFault {
    /// It is no list of parts.
    NoList,
    /// Memory ran out.
    NoMemory,
}

impl fmt::Display for ListFault {
    ghost use Rattle.std.specs.Prelude.{Some};
    ghost use Rattle.xb_parts.specs.FaultTexts.{list_text};

    ghost output = { λ fault. Some (list_text fault) };

    fn fmt<W: fmt::Write>(&self, f: &mut fmt::Formatter<W>) -> fmt::Result {
        match self {
            ListFault::NoList => f.write_str("it is no list of parts"),
            ListFault::NoMemory => f.write_str("out of memory"),
        }
    }
}

impl From<AllocFailed<LineRange>> for ListFault {
    ghost use Rattle.xb_parts.specs.declared.list.ListFault.TheVariants.{NoMemory};

    ghost from_gives = { λ _ fault. fault ≡ NoMemory };

    fn from(_error: AllocFailed<LineRange>) -> ListFault {
        ListFault::NoMemory
    }
}

// The next word of a text line, empty where there is none, and what is left after it.
fn next_word(left: Option<&[u8]>) -> (&[u8], Option<&[u8]>)
    ensures word { result.0.now ≡ word_at (pieces_left space (option_copied left.entry)) 0 }
    ensures rest { pieces_left space (option_copied result.1)
        ≡ drop 1 (pieces_left space (option_copied left.entry)) }
{
    match left {
        Some(text) => first_piece(b' ', text),
        None => (&[], None),
    }
}

// The range that a text line writes.
fn range_of_line(text: &[u8]) -> Option<LineRange>
    ensures { result ≡ range_of_words (pieces space text.now) }
{
    let (_name, left) = next_word(Some(text));
    let (first, left) = next_word(left);
    let (last, _) = next_word(left);
    let first = line_of(first)?.get();
    let last = line_of(last)?.get();
    Some(LineRange {
        first,
        end: last + 1,
    })
}

/// The ranges that a list of parts names, in its order: of each text line the second word is the first line
/// of a part, and the third its last. Each text line ends with LF.
pub fn ranges_of_list(alloc: Global, text: &[u8]) -> Result<Vec<LineRange>, ListFault>
    ensures ranges { IfOk result (λ ranges. ranges_of_list text.now ≡ Some ranges.items) }
    ensures fault { IfErr result (IsListFault text.now) }
{
    let mut ranges = Vec::new(alloc);
    let mut left = Some(text);
    while let Some(lines) = left {
        if lines.is_empty() {
            return Ok(ranges);
        }
        let (line, later) = first_piece(b'\n', lines);
        match range_of_line(line) {
            Some(range) => ranges.push(range)?,
            None => return Err(ListFault::NoList),
        }
        left = later;
    }
    Err(ListFault::NoList)
}

/// A part as a list names it.
#[derive(Clone, Copy, Debug, PartialEq, Eq)]
pub struct ListedPart {
    /// Its lines.
    pub lines: LineRange,
    /// How many records it has.
    pub records: u64,
}

// Writes the name of the deck of a range.
fn write_name(out: &mut String, lines: LineRange) -> Result<(), AllocError>
    ensures { OnOk result (string_bytes out.new ≡ string_bytes out.old ++ deck_name lines) }
{
    let first = lines.first;
    let last = lines.end.saturating_sub(1);
    write!(out, "{first:04}-{last:04}.deck")
}

/// The name of the deck of a range: its first and its last line, in four digits, as `0000-4999.deck`.
pub fn deck_name(alloc: Global, lines: LineRange) -> Result<String, AllocError>
    ensures { IfOk result (λ name. string_bytes name ≡ deck_name lines) }
{
    let mut name = String::new(alloc);
    write_name(&mut name, lines)?;
    Ok(name)
}

// Writes the text line of a part.
fn write_part(out: &mut String, part: ListedPart) -> Result<(), AllocError>
    ensures { OnOk result (string_bytes out.new ≡ string_bytes out.old ++ listed_part part) }
{
    write_name(out, part.lines)?;
    let first = part.lines.first;
    let last = part.lines.end.saturating_sub(1);
    let records = part.records;
    write!(out, " {first} {last} {records}\n")
}

/// The list of parts: a text line for each, with the name of its deck, its first and its last line, and how
/// many records it has. `Err` says that memory ran out.
pub fn list_of(alloc: Global, parts: &[ListedPart]) -> Result<String, AllocError>
    ensures { IfOk result (λ text. string_bytes text ≡ list_of parts.now) }
{
    let mut text = String::new(alloc);
    for part in parts {
        write_part(&mut text, *part)?;
    }
    Ok(text)
}

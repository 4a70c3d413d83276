// The entries that a text tells.
ghost use Rattle.std.specs.Prelude.{◌≡◌, ◌≤◌, IfErr, IfOk, Ok, count_by, length, option_copied};
ghost use Rattle.xb_text.specs.Pieces.{pieces_left};
ghost use Rattle.xb_tone.specs.declared.text.TheConstants.{MOST_TEXT_BYTES};
ghost use Rattle.xb_tone.specs.Entries.{is_keyed};
ghost use Rattle.xb_tone.specs.Texts.{IsFaultOf, IsFaultOfText, are_totals, end_at, ends, entries_of_text, step};

use crate::entry::PlacedEntry;
use crate::object::told_of_line;
use crate::objects_fault::{LineFault, TextFault};
use crate::text_line::Told;
use std::alloc::Global;
use xb_text::first_piece;

/// The most bytes of a text (own limit).
pub const MOST_TEXT_BYTES: usize = 67_108_864;

// How many entries are keyed.
fn count_keyed(entries: &[PlacedEntry]) -> usize
    ensures { result ≡ count_by is_keyed entries.now }
{
    let mut count = 0;
    for entry in entries {
        if entry.is_keyed() {
            count += 1;
        }
    }
    count
}

// Whether totals are those of entries.
fn are_totals(keyed: u64, refused: u64, entries: &[PlacedEntry]) -> bool
    ensures { result ≡ are_totals keyed refused entries.now }
{
    let count = count_keyed(entries);
    keyed == count as u64 && refused == entries.len().saturating_sub(count) as u64
}

// Whether nothing is left of a text.
fn ends(left: Option<&[u8]>) -> bool
    ensures { result ≡ ends (pieces_left 10 (option_copied left.entry)) }
{
    match left {
        Some(text) => text.is_empty(),
        None => true,
    }
}

// Ends the text with the totals of text line `number`, after which this is left: `true`, or why they are wrong.
fn end_at(
    number: u64,
    keyed: u64,
    refused: u64,
    left: Option<&[u8]>,
    entries: &[PlacedEntry],
) -> Result<bool, TextFault>
    ensures last { IfOk result (λ last. let later = pieces_left 10 (option_copied left.entry) in
        end_at number keyed refused entries.now later ≡ Ok (last, entries.now)) }
    ensures fault { let later = pieces_left 10 (option_copied left.entry) in
        IfErr result (IsFaultOf (end_at number keyed refused entries.now later)) }
{
    if !are_totals(keyed, refused, entries) {
        return Err(TextFault::TextLine(number, LineFault::Totals));
    }
    if !ends(left) {
        return Err(TextFault::TextLine(number, LineFault::GoesOn));
    }
    Ok(true)
}

// Puts the entry of text line `number`, if it tells one, after the earlier ones. `true` says that it has the totals, and
// that nothing is left after it.
fn take_line(
    alloc: Global,
    number: u64,
    line: &[u8],
    left: Option<&[u8]>,
    entries: &mut Vec<PlacedEntry>,
) -> Result<bool, TextFault>
    ensures taken { IfOk result (λ last. let later = pieces_left 10 (option_copied left.entry) in
        step number entries.old.items line.now later ≡ Ok (last, entries.new.items)) }
    ensures fault { let later = pieces_left 10 (option_copied left.entry) in
        IfErr result (IsFaultOf (step number entries.old.items line.now later)) }
{
    match told_of_line(alloc, number, line) {
        Ok(Told::Entry(entry)) => {
            if entries.push(entry).is_err() {
                return Err(TextFault::NoMemory);
            }
            Ok(false)
        }
        Ok(Told::Event) => Ok(false),
        Ok(Told::Totals(keyed, refused)) => end_at(number, keyed, refused, left, entries),
        Err(LineFault::NoMemory) => Err(TextFault::NoMemory),
        Err(fault) => Err(TextFault::TextLine(number, fault)),
    }
}

/// The entries that a text tells by objects of `mflive --json`, one in each text line, in its order. Events are passed
/// over. The last text line has the totals, which are those of the entries. The first text line that is wrong is told;
/// it is the one after the last where the totals are missing.
pub fn entries_of_text(alloc: Global, text: &[u8]) -> Result<Vec<PlacedEntry>, TextFault>
    requires { length text.now ≤ MOST_TEXT_BYTES }
    ensures entries { IfOk result (λ entries. entries_of_text text.now ≡ Ok entries.items) }
    ensures fault { IfErr result (IsFaultOfText text.now) }
{
    let mut entries = Vec::new(alloc);
    let mut number = 1u64;
    let mut left = Some(text);
    while let Some(text) = left {
        if text.is_empty() {
            return Err(TextFault::TextLine(number, LineFault::NoTotals));
        }
        let (line, later) = first_piece(b'\n', text);
        if take_line(alloc, number, line, later, &mut entries)? {
            return Ok(entries);
        }
        number += 1;
        left = later;
    }
    Err(TextFault::TextLine(number, LineFault::NoTotals))
}

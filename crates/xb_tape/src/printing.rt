// The page: one line for each entry of the tapes, and the totals.
ghost use Rattle.std.specs.Prelude.{◌≡◌, ◌<◌, ◌^◌, ◌++◌, OnOk, IfOk, count_by, string_bytes};
ghost use Rattle.xb_model.specs.Page.{mark_text, marks_text, entry_body, entry_text};
ghost use Rattle.xb_model.specs.Page.{last_refusal, is_keyed, is_refused, tape_text, totals_text, page_text};
ghost use Rattle.xb_model.specs.Tapes.{entries_of};
ghost use Rattle.xb_tape.specs.MarkLines.{mark_line, word_before};

use crate::entries::entries;
use crate::tapes::Tapes;
use std::alloc::{AllocError, Global};
use xb_model::{LineNo, Mark, Reason, Tone};

// How many entries of a line are keyed calls, and how many are refused ones.
#[derive(Clone, Copy, Default)]
struct Totals {
    keyed: usize,
    refused: usize,
}

// Writes a mark, after a blank.
fn write_mark(out: &mut String, mark: &Mark) -> Result<(), AllocError>
    ensures { OnOk result (string_bytes out.new ≡ string_bytes out.old ++ mark_text mark.now) }
{
    match mark {
        Mark::Trunk(trunk) => {
            let number = trunk.get();
            write!(out, " {number:04}")
        }
        Mark::Tone(key, Tone { low, high }) => {
            let name = key.name();
            write!(out, " {name}:{low}+{high}")
        }
        Mark::Refused(reason, heard) => {
            let word = reason.word();
            write!(out, " {word} {heard}")
        }
    }
}

// Writes marks, one after the other.
fn write_marks(out: &mut String, marks: &[Mark]) -> Result<(), AllocError>
    ensures { OnOk result (string_bytes out.new ≡ string_bytes out.old ++ marks_text marks.now) }
{
    for mark in marks {
        write_mark(out, mark)?;
    }
    Ok(())
}

// What the last mark of an entry refuses.
fn last_refusal(entry: &[Mark]) -> Option<(Reason, u8)>
    ensures { result ≡ last_refusal entry.now }
{
    match entry.last() {
        Some(Mark::Refused(reason, heard)) => Some((*reason, *heard)),
        _ => None,
    }
}

/// Whether an entry is a refused call: a refusal is its last mark.
pub fn is_refused(entry: &[Mark]) -> bool
    ensures { result ≡ is_refused entry.now }
{
    last_refusal(entry).is_some()
}

/// Writes what the page says of an entry after the line and the number, as ` KEYED 0001 KP:1100+1700 ..` or
/// ` REFUSED MUTILATED 1`, without the LF.
///
/// On an `Err`, which says that memory ran out, some of it may have been written.
pub fn write_entry_body(out: &mut String, entry: &[Mark]) -> Result<(), AllocError>
    ensures { OnOk result (string_bytes out.new ≡ string_bytes out.old ++ entry_body entry.now) }
{
    match last_refusal(entry) {
        Some((reason, heard)) => {
            let word = reason.word();
            write!(out, " REFUSED {word} {heard}")
        }
        None => {
            out.push_str(" KEYED")?;
            write_marks(out, entry)
        }
    }
}

/// Writes entry `number` of a line, counted from 1, as the page has it: one printed line, ended by
/// one LF.
///
/// On an `Err`, which says that memory ran out, some of it may have been written.
pub fn write_entry(
    out: &mut String,
    line: LineNo,
    number: usize,
    entry: &[Mark],
) -> Result<(), AllocError>
    ensures { OnOk result (string_bytes out.new
        ≡ string_bytes out.old ++ entry_text line number entry.now) }
{
    let line = line.get();
    write!(out, "{line:04} {number}")?;
    write_entry_body(out, entry)?;
    out.push_str("\n")
}

// What stands before a mark that is printed by itself, and says what it begins.
fn word_before(mark: &Mark) -> &'static str
    ensures { result.now ≡ word_before mark.now }
{
    match mark {
        Mark::Trunk(_) => " KEYED",
        Mark::Tone(_, _) => "",
        Mark::Refused(_, _) => " REFUSED",
    }
}

/// Writes a mark of entry `number` of a line by itself: the line, the entry's number, and the mark as the
/// page has it, as `0005 1 KEYED 0001`, `0005 1 KP:1100+1700` and `0008 1 REFUSED MUTILATED 1`, ended by
/// one LF.
///
/// On an `Err`, which says that memory ran out, some of it may have been written.
pub fn write_mark_line(
    out: &mut String,
    line: LineNo,
    number: usize,
    mark: &Mark,
) -> Result<(), AllocError>
    ensures { OnOk result (string_bytes out.new
        ≡ string_bytes out.old ++ mark_line line number mark.now) }
{
    let line = line.get();
    let word = word_before(mark);
    write!(out, "{line:04} {number}{word}")?;
    write_mark(out, mark)?;
    out.push_str("\n")
}

/// Writes the last line of a page: how many entries are keyed, and how many refused.
///
/// On an `Err`, which says that memory ran out, some of it may have been written.
pub fn write_totals(out: &mut String, keyed: u128, refused: u128) -> Result<(), AllocError>
    ensures { OnOk result (string_bytes out.new ≡ string_bytes out.old ++ totals_text keyed refused) }
{
    write!(out, "KEYED {keyed} REFUSED {refused}\n")
}

// Writes the entries of a line, and counts them.
fn write_tape(out: &mut String, line: LineNo, marks: &[Mark]) -> Result<Totals, AllocError>
    ensures text { OnOk result (string_bytes out.new ≡ string_bytes out.old ++ tape_text line marks.now) }
    ensures keyed { IfOk result (λ totals. totals.keyed ≡ count_by is_keyed (entries_of marks.now)) }
    ensures refused { IfOk result (λ totals. totals.refused ≡ count_by is_refused (entries_of marks.now)) }
    ensures keyed_fits { IfOk result (λ totals. totals.keyed < 2 ^ 64) }
    ensures refused_fits { IfOk result (λ totals. totals.refused < 2 ^ 64) }
{
    let mut totals = Totals::default();
    for entry in entries(marks) {
        let number = totals.keyed + totals.refused + 1;
        write_entry(out, line, number, entry)?;
        if is_refused(entry) {
            totals.refused += 1;
        } else {
            totals.keyed += 1;
        }
    }
    Ok(totals)
}

/// The page of the tapes: ASCII, each printed line ended by one LF. It has the entries
/// of each line of the office, the lines ascending and the entries of a line counted from 1, and
/// last the totals of keyed and of refused entries.
///
/// A keyed call is printed as `0005 1 KEYED 0001 KP:1100+1700 0:1300+1500 ST:1500+1700`: the line,
/// the entry's number, the trunk group, and each key with its pair of tones in Hz. A refused one is
/// `0008 1 REFUSED MUTILATED 1`: its reason, and the count that goes with it. The totals are
/// `KEYED 1 REFUSED 1`. Lines and trunk groups have four digits, with leading zeros. Marks after a
/// line's last ending mark belong to no entry and are not printed.
///
/// `Err` says that memory ran out.
pub fn page(alloc: Global, tapes: &Tapes) -> Result<Vec<u8>, AllocError>
    ensures { IfOk result (λ page. page.items ≡ page_text tapes.now) }
{
    let mut out = String::new(alloc);
    let mut keyed: u128 = 0;
    let mut refused: u128 = 0;
    for (line, marks) in tapes.lines() {
        let totals = write_tape(&mut out, line, marks)?;
        keyed += totals.keyed as u128;
        refused += totals.refused as u128;
    }
    write_totals(&mut out, keyed, refused)?;
    Ok(out.into_bytes())
}

// The entries of a page.
ghost use Rattle.std.specs.Prelude.{◌≡◌, ◌≤◌, ◌<◌, ◌+◌, ◌^◌, Ok, IfOk, IfErr, OnOk, ◌∷◌, option_map, Some, [], length, option_copied};
ghost use Rattle.xb_page.specs.Places.{line_feed, space, text_line, written};
ghost use Rattle.xb_page.specs.ReadPages.{IsFaultOf, IsWrongKey, IsWrongRefusal, TakesLine, end_of, entries_of_page, entry_of_fields, entry_of_head, is_end, marks_of, refusal_of_fields};
ghost use Rattle.xb_text.specs.Pieces.{pieces, pieces_left};

use crate::entry::PageEntry;
use crate::fault::PageFault;
use crate::fields::{mark_of, refusal_of};
use crate::page_place::{Head, PagePlace};
use crate::totals::{is_totals, says_totals};
use std::alloc::Global;
use xb_model::{Key, Mark};
use xb_text::first_piece;

/// The most bytes of a page (own limit).
pub const MOST_PAGE_BYTES: usize = 67_108_864;

// The marks that the fields of text line `n` write.
fn marks_of(alloc: Global, n: usize, fields: Option<&[u8]>) -> Result<Vec<Mark>, PageFault>
    ensures marks { let says = marks_of (pieces_left space (option_copied fields.entry)) in
        IfOk result (λ marks. says ≡ Some marks.items) }
    ensures fault { let says = marks_of (pieces_left space (option_copied fields.entry)) in
        IfErr result (λ f. IsWrongKey n says f) }
{
    // names a type inside `Mark`, without which the check has no plan for the borrow of `marks`
    let _key: Option<Key> = None;
    let mut marks = Vec::new(alloc);
    let mut left = fields;
    while let Some(text) = left {
        let (field, later) = first_piece(b' ', text);
        let mark = mark_of(field).ok_or(PageFault::Key(n))?;
        if marks.push(mark).is_err() {
            return Err(PageFault::NoMemory);
        }
        left = later;
    }
    Ok(marks)
}

// The one mark of the refusal that text line `n` writes.
fn refused_marks(alloc: Global, n: usize, rest: Option<&[u8]>) -> Result<Vec<Mark>, PageFault>
    ensures marks { let says = refusal_of_fields (pieces_left space (option_copied rest.entry)) in
        IfOk result (λ marks. option_map (λ mark. mark ∷ []) says ≡ Some marks.items) }
    ensures fault { let says = refusal_of_fields (pieces_left space (option_copied rest.entry)) in
        IfErr result (λ f. IsWrongRefusal n says f) }
{
    // as in `marks_of`
    let _key: Option<Key> = None;
    let mark = refusal_of(rest).ok_or(PageFault::Refusal(n))?;
    let mut marks = Vec::new(alloc);
    if marks.push(mark).is_err() {
        return Err(PageFault::NoMemory);
    }
    Ok(marks)
}

// The entry of a head in text line `n`.
fn entry_of_head(alloc: Global, n: usize, head: Head<'_>) -> Result<PageEntry, PageFault>
    ensures entry { IfOk result (λ entry. entry_of_head n (written head.entry) ≡ Ok entry) }
    ensures fault { IfErr result (λ f. IsFaultOf (entry_of_head n (written head.entry)) f) }
    ensures number { IfOk result (λ entry. entry.number ≡ head.entry.number) }
{
    if head.refused {
        let marks = refused_marks(alloc, n, head.rest)?;
        Ok(PageEntry::new(head.line, head.number, marks))
    } else {
        let marks = marks_of(alloc, n, head.rest)?;
        Ok(PageEntry::new(head.line, head.number, marks))
    }
}

// The entry that the text line at a place writes, or its first fault.
fn entry_of_line(alloc: Global, place: &PagePlace, text: &[u8]) -> Result<PageEntry, PageFault>
    requires lines { text_line place.now < 2 ^ 64 }
    requires entries { place.now.entries + 1 < 2 ^ 64 }
    ensures entry { IfOk result (λ entry. entry_of_fields place.now (pieces space text.now) ≡ Ok entry) }
    ensures fault { IfErr result (λ f. IsFaultOf (entry_of_fields place.now (pieces space text.now)) f) }
    ensures number { IfOk result (λ entry. entry.number ≤ place.now.entries + 1) }
{
    // `?` has no rule for a borrow beside a line
    match place.head_of(text) {
        Ok(head) => entry_of_head(alloc, place.text_line(), head),
        Err(fault) => Err(fault),
    }
}

// Puts the entry of a text line after the earlier ones, and returns the place after it.
fn take_line(
    alloc: Global,
    place: &PagePlace,
    line: &[u8],
    entries: &mut Vec<PageEntry>,
) -> Result<PagePlace, PageFault>
    requires lines { text_line place.now < 2 ^ 64 }
    requires entries { place.now.entries + 1 < 2 ^ 64 }
    ensures taken { IfOk result (λ next.
        TakesLine place.now line.now entries.old.items next entries.new.items) }
    ensures lines { IfOk result (λ next. text_line next ≡ text_line place.now + 1) }
    ensures entries { IfOk result (λ next. next.entries ≤ place.now.entries + 1) }
    ensures fault { IfErr result (λ f. IsFaultOf (entry_of_fields place.now (pieces space line.now)) f) }
{
    let entry = entry_of_line(alloc, place, line)?;
    let next = place.after(entry.line(), entry.number(), entry.is_refused());
    if entries.push(entry).is_err() {
        return Err(PageFault::NoMemory);
    }
    Ok(next)
}

// Whether nothing is left of a page but its last LF.
fn is_end(left: Option<&[u8]>) -> bool
    ensures { result ≡ is_end (pieces_left line_feed (option_copied left.entry)) }
{
    match left {
        Some(text) => text.is_empty(),
        None => false,
    }
}

// Whether the totals, after which this is left, are those at a place and end the page.
fn end(place: &PagePlace, totals: &[u8], left: Option<&[u8]>) -> Result<(), PageFault>
    requires { text_line place.now < 2 ^ 64 }
    ensures end { let after = pieces_left line_feed (option_copied left.entry) in
        let says = end_of place.now (pieces space totals.now) after in
        OnOk result (says ≡ Ok []) }
    ensures fault { let after = pieces_left line_feed (option_copied left.entry) in
        let says = end_of place.now (pieces space totals.now) after in
        IfErr result (λ f. says ≡ Err f) }
{
    let n = place.text_line();
    if !says_totals(place, totals) {
        Err(PageFault::Totals(n))
    } else if is_end(left) {
        Ok(())
    } else {
        match left {
            Some(_) => Err(PageFault::GoesOn(n)),
            None => Err(PageFault::NoTotals(n)),
        }
    }
}

/// The entries of a page, in its order, or its first fault. Each text line ends at LF (`end_lines_at_lf`), and
/// the last one has the totals. A key has its own two frequencies.
pub fn page_entries(alloc: Global, page: &[u8]) -> Result<Vec<PageEntry>, PageFault>
    requires { length page.now ≤ MOST_PAGE_BYTES }
    ensures entries { IfOk result (λ entries. entries_of_page page.now ≡ Ok entries.items) }
    ensures fault { IfErr result (λ f. IsFaultOf (entries_of_page page.now) f) }
{
    let mut entries = Vec::new(alloc);
    let mut place = PagePlace::start(0);
    let mut left = Some(page);
    while let Some(text) = left {
        if is_end(left) {
            return Err(PageFault::NoTotals(place.text_line()));
        }
        let (line, later) = first_piece(b'\n', text);
        if is_totals(line) {
            end(&place, line, later)?;
            return Ok(entries);
        }
        place = take_line(alloc, &place, line, &mut entries)?;
        left = later;
    }
    Err(PageFault::NoTotals(place.text_line()))
}

// The text lines of a deck's rows, each read once.
ghost use Rattle.std.specs.Prelude.{◌≡◌, ◌+◌, ◌<◌, ◌≤◌, ◌^◌, ◌++◌, ◌∷◌, [], IfOk, OnOk, length, map};
ghost use Rattle.xb_deck.specs.declared.deck.TheConstants.{MOST_DECK_BYTES};
ghost use Rattle.xb_deck.specs.Deck.{deck_parts};
ghost use Rattle.xb_findings.specs.declared.row_lines.RowsPart.TheVariants as part;
ghost use Rattle.xb_findings.specs.DeckFaults.{faults_of_deck, faults_of_lines, faults_of_rows};
ghost use Rattle.xb_findings.specs.Findings.{found_of};
ghost use Rattle.xb_findings.specs.Kept.{first_at, kept_at, kept_line_of, kept_of_deck, kept_of_lines, kept_of_rows, seen_after, seen_of};
ghost use Rattle.xb_findings.specs.Places.{faults_of_table};
ghost use Rattle.xb_findings.specs.Records.{closed_after, closed_of};
ghost use Rattle.xb_findings.specs.Steps.{TakesLine, lines_of};
ghost use Rattle.xb_findings.specs.Tallies.{nothing_told, tallied, with_all};
ghost use Rattle.xb_findings.specs.TextLines.{text_lines};

use crate::closes::Closes;
use crate::finding::Finding;
use crate::kept_lines::{KeptLine, LineKind, Seen};
use crate::records::{Record, push_found, what_of_record, with_point, without_key, wrong_header};
use crate::separators::{is_other, is_told, separated_record, separator_of_header, what_of_line};
use crate::table_places::{place_at, push_spots, table_of};
use crate::tally::Tally;
use crate::text_lines::first_line;
use std::alloc::{AllocError, Global};
use xb_deck::Deck;
use xb_keys::spots_of;
use xb_model::Contact;

// The part of a deck's rows in which a text line stands.
#[derive(Drop)]
pub(crate) enum RowsPart {
    // Before the header.
    Header,
    // After it, where these lines of the office were closed, these have a record, and by what fields are separated was
    // told, or not.
    Records(Closes, Seen, bool),
}

/// What was found in the text lines of a deck.
#[derive(Drop)]
pub struct LinesRead<'a> {
    /// What is wrong in them.
    pub tally: Tally<'a>,
    /// Those of which more may be said once the whole deck is known, in order.
    pub kept: Vec<KeptLine<'a>>,
}

// Keeps text line `n`, which is of this kind.
fn keep<'a>(
    kept: &mut Vec<KeptLine<'a>>,
    n: usize,
    text: &'a [u8],
    kind: LineKind,
) -> Result<(), AllocError>
    ensures { OnOk result (map kept_line_of kept.new.items
        ≡ map kept_line_of kept.old.items ++ kept_at n text.now kind ∷ []) }
{
    kept.push(KeptLine { n, text, kind })?;
    Ok(())
}

// Takes text line `n` before the header.
fn take_before_header<'a>(
    alloc: Global,
    lines: &mut LinesRead<'a>,
    n: usize,
    text: &'a [u8],
) -> Result<RowsPart, AllocError>
    ensures { IfOk result (TakesLine part.Header n text.now (lines_of lines.old) (lines_of lines.new)) }
{
    if text.is_empty() {
        return Ok(RowsPart::Header);
    }
    let separator = separator_of_header(alloc, text)?;
    let header = wrong_header(alloc, text)?;
    let wrong = what_of_line(false, separator, header);
    push_found(&mut lines.tally, n, text, without_key(wrong))?;
    keep(&mut lines.kept, n, text, LineKind::Header)?;
    let told = is_other(separator);
    Ok(RowsPart::Records(Closes::new(alloc)?, Seen::new(alloc)?, told))
}

// Text line `n`, read so, closes the line of its record, where that is a close.
fn close_by(closes: &mut Closes, n: usize, read: &Record)
    ensures { closed_of closes.new ≡ closed_after (closed_of closes.old) n read.now }
{
    if let Record::Row(row) = read {
        match row.contact() {
            Contact::Close => closes.close(row.line(), n),
            Contact::Make | Contact::Brk => {}
        }
    }
}

// Keeps text line `n`, read so, where it is the first record of its line of the office.
fn keep_first<'a>(
    kept: &mut Vec<KeptLine<'a>>,
    seen: &mut Seen,
    n: usize,
    text: &'a [u8],
    read: &Record,
) -> Result<(), AllocError>
    ensures kept { OnOk result (map kept_line_of kept.new.items
        ≡ map kept_line_of kept.old.items ++ first_at (seen_of seen.old) n text.now read.now) }
    ensures seen { OnOk result (seen_of seen.new ≡ seen_after (seen_of seen.old) read.now) }
{
    if let Record::Row(row) = read {
        let line = row.line();
        if !seen.has(line) {
            keep(kept, n, text, LineKind::First(line.get()))?;
        }
        seen.put(line);
    }
    Ok(())
}

// Takes text line `n` after the header, and whether by what fields are separated was told after it.
fn take_record<'a>(
    alloc: Global,
    lines: &mut LinesRead<'a>,
    closes: &mut Closes,
    seen: &mut Seen,
    told: bool,
    n: usize,
    text: &'a [u8],
) -> Result<bool, AllocError>
    ensures { IfOk result (λ after. TakesLine (part.Records closes.old seen.old told) n text.now
        (lines_of lines.old) (lines_of lines.new) (part.Records closes.new seen.new after)) }
{
    let read = separated_record(alloc, text)?;
    let what = with_point(text, what_of_record(closes, &read.said));
    let wrong = what_of_line(told, read.separator, what);
    push_found(&mut lines.tally, n, text, without_key(wrong))?;
    close_by(closes, n, &read.said);
    keep_first(&mut lines.kept, seen, n, text, &read.said)?;
    Ok(is_told(told, read.separator))
}

// Takes text line `n` of a part.
fn take_line<'a>(
    alloc: Global,
    lines: &mut LinesRead<'a>,
    part: RowsPart,
    n: usize,
    text: &'a [u8],
) -> Result<RowsPart, AllocError>
    ensures { IfOk result (TakesLine part n text.now (lines_of lines.old) (lines_of lines.new)) }
{
    match part {
        RowsPart::Header => take_before_header(alloc, lines, n, text),
        RowsPart::Records(mut closes, mut seen, told) => {
            let after = take_record(alloc, lines, &mut closes, &mut seen, told, n, text)?;
            Ok(RowsPart::Records(closes, seen, after))
        }
    }
}

// Reads the text lines of rows, before which so many stand.
fn read_rows<'a>(
    alloc: Global,
    lines: &mut LinesRead<'a>,
    before: usize,
    rows: &'a [u8],
) -> Result<(), AllocError>
    requires { before + length rows.now + 1 < 2 ^ 64 }
    ensures found { OnOk result ((lines_of lines.new).tally
        ≡ with_all (lines_of lines.old).tally (faults_of_lines (before + 1) (text_lines rows.now))) }
    ensures kept { OnOk result ((lines_of lines.new).kept
        ≡ (lines_of lines.old).kept ++ kept_of_lines (before + 1) (text_lines rows.now)) }
{
    let mut part = RowsPart::Header;
    let mut n = before;
    let mut left = Some(rows);
    while let Some(texts) = left {
        let (text, later) = first_line(texts);
        n += 1;
        part = take_line(alloc, lines, part, n, text)?;
        left = later;
    }
    Ok(())
}

// Reads the text lines of a deck's rows, if a line cuts it.
fn read_rows_of<'a>(
    alloc: Global,
    lines: &mut LinesRead<'a>,
    deck: &'a [u8],
) -> Result<(), AllocError>
    requires { length deck.now ≤ MOST_DECK_BYTES }
    ensures found { OnOk result ((lines_of lines.new).tally
        ≡ with_all (lines_of lines.old).tally (faults_of_rows deck.now (deck_parts deck.now))) }
    ensures kept { OnOk result ((lines_of lines.new).kept
        ≡ (lines_of lines.old).kept ++ kept_of_rows deck.now (deck_parts deck.now)) }
{
    match Deck::cut(deck) {
        Some(parts) => {
            let cut = place_at(deck, parts.table.len());
            read_rows(alloc, lines, cut.line, parts.rows)
        }
        None => Ok(()),
    }
}

// Reads the route table of a deck.
fn read_table<'a>(alloc: Global, all: bool, deck: &'a [u8]) -> Result<Tally<'a>, AllocError>
    requires { length deck.now ≤ MOST_DECK_BYTES }
    ensures { IfOk result (λ tally. tallied tally ≡ with_all (nothing_told all) (faults_of_table deck.now)) }
{
    let mut tally = Tally::new(alloc, all);
    let spots = spots_of(alloc, table_of(deck))?;
    push_spots(&mut tally, deck, &spots)?;
    Ok(tally)
}

/// Reads the route table of a deck, and the text lines of its rows, each by itself and once, and tells all that is
/// wrong, or the first of each kind.
pub fn read_lines<'a>(alloc: Global, all: bool, deck: &'a [u8]) -> Result<LinesRead<'a>, AllocError>
    requires { length deck.now ≤ MOST_DECK_BYTES }
    ensures found { IfOk result (λ lines.
        (lines_of lines).tally ≡ with_all (nothing_told all) (faults_of_deck deck.now)) }
    ensures kept { IfOk result (λ lines. (lines_of lines).kept ≡ kept_of_deck deck.now) }
{
    let tally = read_table(alloc, all, deck)?;
    let kept = Vec::new(alloc);
    let mut lines = LinesRead { tally, kept };
    read_rows_of(alloc, &mut lines, deck)?;
    Ok(lines)
}

/// What is wrong in a deck: the keys and headings of its route table that no rule names, and then its text
/// lines after the one that cuts it, each read by itself. `Err` where memory ran out.
pub fn findings<'a>(alloc: Global, deck: &'a [u8]) -> Result<Vec<Finding<'a>>, AllocError>
    requires { length deck.now ≤ MOST_DECK_BYTES }
    ensures { IfOk result (λ found. map found_of found.items ≡ faults_of_deck deck.now) }
{
    Ok(read_lines(alloc, true, deck)?.tally.told)
}

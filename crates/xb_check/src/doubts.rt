// What is suspicious in a deck that is taken, beside what its text lines have by themselves.
ghost use Rattle.std.specs.Prelude.{◌≡◌, OnOk, map};
ghost use Rattle.std.specs.List.{flat_map};
ghost use Rattle.xb_check.specs.Doubts.{doubt_at, doubts_in, doubts_of_rows, what_of_line, what_of_ringing, what_of_unit};
ghost use Rattle.xb_doubts.specs.Lines.{told_by};
ghost use Rattle.xb_findings.specs.Kept.{kept_line_of};
ghost use Rattle.xb_findings.specs.Tallies.{tallied, with_all};

use crate::deck_contents::Contents;
use std::alloc::{AllocError, Global};
use xb_doubts::{Lines, Told, Unit, Whole, whole_of};
use xb_findings::{KeptLine, LineKind, Tally, What, push_found, without_key};

// Of which other unit the times look.
fn what_of_unit(unit: Option<Unit>) -> Option<What>
    ensures { result ≡ what_of_unit unit }
{
    match unit {
        None => None,
        Some(Unit::Seconds) => Some(What::Seconds),
        Some(Unit::Microseconds) => Some(What::Microseconds),
        Some(Unit::Nanoseconds) => Some(What::Nanoseconds),
    }
}

// Whether its lines ring.
fn what_of_ringing(rings: bool) -> Option<What>
    ensures { result ≡ what_of_ringing rings }
{
    if rings { Some(What::Ringing) } else { None }
}

// Puts what is suspicious in all rows together after what was found.
fn push_whole<'a>(
    tally: &mut Tally<'a>,
    whole: Whole,
    n: usize,
    text: &'a [u8],
) -> Result<(), AllocError>
    ensures { OnOk result (tallied tally.new ≡ with_all (tallied tally.old)
        (doubts_of_rows whole.unit whole.is_ringing n text.now)) }
{
    push_found(tally, n, text, without_key(what_of_unit(whole.unit)))?;
    push_found(
        tally,
        n,
        text,
        without_key(what_of_ringing(whole.is_ringing)),
    )
}

// What is suspicious in a line of the office.
fn what_of_line(told: Told) -> Option<What>
    ensures { result ≡ what_of_line told }
{
    if told.is_quiet {
        Some(What::Quiet)
    } else if told.is_exchanged {
        Some(What::Exchanged)
    } else {
        None
    }
}

// Puts what is suspicious at a text line after what was found.
fn push_doubt<'a>(
    tally: &mut Tally<'a>,
    whole: Whole,
    lines: &Lines,
    kept: KeptLine<'a>,
) -> Result<(), AllocError>
    ensures { OnOk result (tallied tally.new ≡ with_all (tallied tally.old)
        (doubt_at whole.unit whole.is_ringing (told_by lines.now) (kept_line_of kept.entry))) }
{
    match kept.kind {
        LineKind::Header => push_whole(tally, whole, kept.n, kept.text),
        LineKind::First(number) => {
            let what = what_of_line(lines.of_number(number));
            push_found(tally, kept.n, kept.text, without_key(what))
        }
    }
}

// Puts what is suspicious at text lines after what was found.
fn push_each<'a>(
    tally: &mut Tally<'a>,
    whole: Whole,
    lines: &Lines,
    kept: &[KeptLine<'a>],
) -> Result<(), AllocError>
    ensures { OnOk result (tallied tally.new ≡ with_all (tallied tally.old)
        (flat_map (doubt_at whole.unit whole.is_ringing (told_by lines.now)) (map kept_line_of kept.now))) }
{
    for line in kept {
        push_doubt(tally, whole, lines, *line)?;
    }
    Ok(())
}

/// Puts what is suspicious in a deck with these contents, of which these text lines were kept, after what was found.
pub(crate) fn push_doubts<'a>(
    alloc: Global,
    tally: &mut Tally<'a>,
    contents: &Contents,
    kept: &[KeptLine<'a>],
) -> Result<(), AllocError>
    ensures { OnOk result (tallied tally.new ≡ with_all (tallied tally.old)
        (doubts_in contents.now (map kept_line_of kept.now))) }
{
    let (limits, rows) = (contents.limits(), contents.rows());
    let lines = Lines::of_rows(alloc, limits, rows)?;
    let straight = lines.rows_of_others(alloc, rows)?;
    let whole = whole_of(alloc, limits, &straight)?;
    push_each(tally, whole, &lines, kept)
}

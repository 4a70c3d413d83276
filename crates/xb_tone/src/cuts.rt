// Which entries are cut by the next one.
ghost use Rattle.std.specs.Prelude.{◌≡◌, ◌++◌, IfOk, OnOk, option_copied, string_bytes};
ghost use Rattle.xb_tone.specs.Cuts.{cut_line, cuts, line_between, lines_of_cuts};

use crate::entry::PlacedEntry;
use std::alloc::{AllocError, Global};
use xb_sound::Cadence;

// Whether an entry comes before the sound of the one before it has ended.
fn cuts(cadence: Cadence, before: &PlacedEntry, entry: &PlacedEntry) -> bool
    ensures { result ≡ cuts cadence before.now entry.now }
{
    entry.at_ms.saturating_sub(before.at_ms) < before.sounds_ms(cadence)
}

// Puts the line of an entry that the next one cuts after the text.
fn push_line(
    text: &mut String,
    program: &str,
    before: &PlacedEntry,
    entry: &PlacedEntry,
) -> Result<(), AllocError>
    ensures { OnOk result (string_bytes text.new
        ≡ string_bytes text.old ++ cut_line program.now before.now entry.now) }
{
    let number = before.number;
    let line = before.line.get();
    let at_ms = entry.at_ms;
    let by = entry.number;
    let by_line = entry.line.get();
    write!(
        text,
        "{program}: entry {number} of line {line} is cut at {at_ms} ms by entry {by} of line {by_line}\n"
    )
}

// Puts the line of an entry, if there is a next one that cuts it, after the text.
fn push_between(
    text: &mut String,
    program: &str,
    cadence: Cadence,
    before: &PlacedEntry,
    next: Option<&PlacedEntry>,
) -> Result<(), AllocError>
    ensures { OnOk result (string_bytes text.new
        ≡ string_bytes text.old ++ line_between program.now cadence before.now (option_copied next.entry)) }
{
    match next {
        Some(entry) if cuts(cadence, before, entry) => push_line(text, program, before, entry),
        _ => Ok(()),
    }
}

/// A line for each entry whose sound has not ended when the next one comes, after the program's name. `Err`
/// says that memory ran out.
pub fn lines_of_cuts(
    alloc: Global,
    program: &str,
    cadence: Cadence,
    entries: &[PlacedEntry],
) -> Result<String, AllocError>
    ensures { IfOk result (λ text. string_bytes text ≡ lines_of_cuts program.now cadence entries.now) }
{
    let mut text = String::new(alloc);
    let mut left = entries;
    while let Some((before, later)) = left.split_first() {
        push_between(&mut text, program, cadence, before, later.first())?;
        left = later;
    }
    Ok(text)
}

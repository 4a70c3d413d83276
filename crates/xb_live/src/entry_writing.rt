// Entries, written as rows complete them.
ghost use Rattle.std.specs.Prelude.{◌≡◌, ◌<◌, ◌≤◌, ◌+◌, ℕ, [], ◌∷◌, ◌++◌, List, Option};
ghost use Rattle.xb_model.specs.declared.line.TheConstants.{LINES};
ghost use Rattle.xb_model.specs.Rows.{LoopRow};
ghost use Rattle.xb_routes.specs.Table.{Table};
ghost use Rattle.xb_clock.specs.Clocks.{Clock};
ghost use Rattle.xb_live.specs.Clocks.{IsClockOf, styled};
ghost use Rattle.xb_live.specs.Texts.{with_closes};
ghost use Rattle.xb_live.specs.Writing.{AreSignals, Ends, HasWritten, Hears, Writes};
ghost use Rattle.xb_live.specs.declared.counting.TheConstants.{MOST_ENTRIES};

use crate::counting::Counting;
use crate::entry_text::{EntryForm, text_of_row, text_of_totals};
use crate::fault::EntriesFault;
use crate::hearings::Hearings;
use arrayvec::ArrayVec;
use std::alloc::Global;
use std::io::Write;
use xb_model::{LINES, LineNo, Row, Signal};
use xb_pulse::MOST_SIGNALS;
use xb_text::write_whole;

// Takes one row into what is heard, where what is printed tells of it: then its signals.
fn hear(form: EntryForm, hearings: &mut Hearings, row: Row) -> ArrayVec<Signal, MOST_SIGNALS>
    ensures heard { (table : Table) (rows : List LoopRow) → Hears form table hearings.old rows →
        Hears form table hearings.new (rows ++ row ∷ []) }
    ensures signals { (table : Table) (rows : List LoopRow) → Hears form table hearings.old rows →
        AreSignals form table rows row result.items }
{
    match form {
        EntryForm::Entries => ArrayVec::new(),
        EntryForm::Marks => ArrayVec::new(),
        EntryForm::Objects(_) => hearings.take(row),
        EntryForm::MarkObjects(_) => hearings.take(row),
        EntryForm::Events(_) => hearings.take(row),
    }
}

/// Takes one row, and writes what it tells: its events, where they are asked for, and the entry that it
/// completes, if it does, with its number. Then `out` is flushed.
///
/// On an `Err` the row was taken, and what it tells was not written whole.
pub fn take_row<W: Write>(
    alloc: Global,
    form: EntryForm,
    office: &mut Counting,
    hearings: &mut Hearings,
    row: Row,
    out: &mut W,
) -> Result<(), EntriesFault>
    requires { office.old.keyed + office.old.refused < MOST_ENTRIES }
    ensures written { (clock : Clock) → IsClockOf form clock →
        (rows : List LoopRow) (start : Option (List ℕ)) →
        HasWritten (styled form clock) office.old hearings.old rows start (W.contents out.old) →
        Writes (styled form clock) office.new hearings.new (rows ++ row ∷ []) result
        start (W.contents out.new) }
    ensures one { office.new.keyed + office.new.refused ≤ office.old.keyed + office.old.refused + 1 }
    ensures table { office.new.live.table ≡ office.old.live.table }
{
    let signals = hear(form, hearings, row);
    let number = office.take(row);
    let line = row.line();
    let heard = hearings.of(line);
    let text = text_of_row(alloc, form, line, &signals, number, office.entry(), heard)?;
    if text.is_empty() {
        return Ok(());
    }
    write_whole(out, &text)?;
    Ok(())
}

// Closes each line, the lines ascending.
fn close_lines<W: Write>(
    alloc: Global,
    form: EntryForm,
    office: &mut Counting,
    hearings: &mut Hearings,
    out: &mut W,
) -> Result<(), EntriesFault>
    requires { office.old.keyed + office.old.refused + LINES < MOST_ENTRIES }
    ensures written { (clock : Clock) → IsClockOf form clock →
        (rows : List LoopRow) (start : Option (List ℕ)) →
        HasWritten (styled form clock) office.old hearings.old rows start (W.contents out.old) →
        Writes (styled form clock) office.new hearings.new (with_closes rows) result
        start (W.contents out.new) }
    ensures table { office.new.live.table ≡ office.old.live.table }
{
    for number in 0..LINES {
        if let Some(line) = LineNo::new(number) {
            take_row(alloc, form, office, hearings, Row::close(line), out)?;
        }
    }
    Ok(())
}

/// Ends the rows: closes each line, the lines ascending, so that what goes on is refused, and writes the
/// entries that this completes and then the totals.
pub fn end<W: Write>(
    alloc: Global,
    form: EntryForm,
    office: &mut Counting,
    hearings: &mut Hearings,
    out: &mut W,
) -> Result<(), EntriesFault>
    requires { office.old.keyed + office.old.refused + LINES < MOST_ENTRIES }
    ensures { (clock : Clock) → IsClockOf form clock →
        (rows : List LoopRow) (start : Option (List ℕ)) →
        HasWritten (styled form clock) office.old hearings.old rows start (W.contents out.old) →
        Ends (styled form clock) office.old.live.table rows result start (W.contents out.new) }
{
    close_lines(alloc, form, office, hearings, out)?;
    let text = text_of_totals(alloc, form, office.keyed(), office.refused())?;
    write_whole(out, text.as_bytes())?;
    Ok(())
}

// From a deck as it comes to the entries of its rows.
ghost use Rattle.std.specs.Prelude.{◌≡◌, ◌+◌, [], option_map};
ghost use Rattle.xb_rows.specs.Streams.{rest_of_stream};
ghost use Rattle.xb_clock.specs.Clocks.{Clock};
ghost use Rattle.xb_live.specs.Clocks.{IsClockOf, styled};
ghost use Rattle.xb_live.specs.Counting.{HasCounted};
ghost use Rattle.xb_live.specs.Hearings.{HasHeard};
ghost use Rattle.xb_live.specs.Runs.{PrintsRows, Runs};

use crate::counting::Counting;
use crate::entry_text::EntryForm;
use crate::entry_writing::{end, take_row};
use crate::fault::LiveFault;
use crate::hearings::Hearings;
use std::alloc::Global;
use std::io::{Read, Write};
use xb_deck::{MOST_DECK_BYTES, read_table};
use xb_routes::RouteTable;
use xb_rows::RowReader;

/// The most rows that are counted.
pub(crate) const MOST_ROWS: u64 = 1 << 63;

// Takes the rows to their stop, and writes the entries that they complete; where they end, the lines are
// closed, and the totals come last.
fn print_rows<R: Read, W: Write>(
    alloc: Global,
    form: EntryForm,
    office: &mut Counting,
    hearings: &mut Hearings,
    rows: &mut RowReader<R>,
    out: &mut W,
) -> Result<(), LiveFault>
    requires fresh { HasCounted office.old [] }
    requires silent { HasHeard office.old.live.table hearings.old [] }
    requires none { office.old.keyed + office.old.refused ≡ 0 }
    ensures { (clock : Clock) → IsClockOf form clock →
        PrintsRows (styled form clock) office.old.live.table rows.old result
        (W.contents out.old) (W.contents out.new) }
{
    for _ in 0..MOST_ROWS {
        match rows.next_row()? {
            Some(row) => take_row(alloc, form, office, hearings, row, out)?,
            None => {
                end(alloc, form, office, hearings, out)?;
                return Ok(());
            }
        }
    }
    Err(LiveFault::TooMany)
}

/// The rows after a table, however many there may be.
pub(crate) fn rows_after<R: Read>(deck: R) -> RowReader<R>
    ensures { result ≡ option_map (rest_of_stream u64.MAX) (R.remaining deck) }
{
    RowReader::new(deck, u64::MAX)
}

/// Reads a deck as it comes, and writes each entry of its rows in the row that completes it; `out` is flushed
/// after each. At the end the lines are closed, ascending, and the totals come last. Memory does not grow
/// with the rows.
///
/// On an `Err` what was written before stands.
///
/// What the contract says of bytes it says of readers whose bytes and writers whose contents are known to
/// contracts (byte slices, lists), which those of a process are not.
pub fn run_deck<R: Read, W: Write>(
    alloc: Global,
    form: EntryForm,
    deck: &mut R,
    out: &mut W,
) -> Result<(), LiveFault>
    ensures { (clock : Clock) → IsClockOf form clock →
        Runs (styled form clock) (R.remaining deck.old) result (W.contents out.old) (W.contents out.new) }
{
    let text = read_table(alloc, deck, MOST_DECK_BYTES)?;
    let table = RouteTable::read(alloc, &text)?;
    let mut hearings = Hearings::new(alloc, &table)?;
    let mut office = Counting::new(alloc, table)?;
    let mut rows = rows_after(deck);
    print_rows(alloc, form, &mut office, &mut hearings, &mut rows, out)
}

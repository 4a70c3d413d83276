// From a deck as it comes to the sound of a line's trunk.
ghost use Rattle.std.specs.Prelude.{◌≡◌, ◌<◌, ◌≤◌, ◌+◌, ℕ, [], ◌∷◌, ◌++◌, List, Option, Err, OnOk};
ghost use Rattle.xb_model.specs.Rows.{LoopRow};
ghost use Rattle.xb_sound.specs.declared.cadence.Cadence.{Cadence};
ghost use Rattle.xb_sound.specs.declared.cadence.CadenceFault.{CadenceFault};
ghost use Rattle.xb_live.specs.Counting.{HasCounted};
ghost use Rattle.xb_live.specs.SoundedDecks.{JudgesCadence, SoundsDeck, SoundsRows};
ghost use Rattle.xb_live.specs.Sounding.{HasSounded, Sounds};
ghost use Rattle.xb_live.specs.Starting.{Asked, GrowsByRow, HasRoom, asked_of, started_of};
ghost use Rattle.xb_live.specs.declared.counting.TheConstants.{MOST_ENTRIES};

use crate::counting::Counting;
use crate::deck_entries::{MOST_ROWS, rows_after};
use crate::fault::LiveFault;
use crate::wink_start::Starting;
use std::alloc::Global;
use std::io::{Read, Write};
use xb_deck::{MOST_DECK_BYTES, read_table};
use xb_model::{LineNo, Row};
use xb_routes::RouteTable;
use xb_rows::RowReader;
use xb_sound::Cadence;
use xb_trunk::{Trunk, TrunkFault};

// Takes one row: one of the line writes its samples, and the sound of the entry that it completes begins with its end,
// or waits.
fn sound_row<W: Write>(
    alloc: Global,
    line: LineNo,
    office: &mut Counting,
    starting: &mut Starting,
    trunk: &mut Trunk,
    row: Row,
    out: &mut W,
) -> Result<(), TrunkFault>
    requires few { office.old.keyed + office.old.refused < MOST_ENTRIES }
    requires room { HasRoom starting.old }
    ensures sounds { (asked : Asked) (cadence : Cadence) (rows : List LoopRow) (start : Option (List ℕ)) →
        asked.line ≡ line →
        HasSounded asked cadence office.old starting.old trunk.old rows start (W.contents out.old) →
        Sounds asked cadence office.new starting.new trunk.new (rows ++ row ∷ []) result start
        (W.contents out.new) }
    ensures grows { OnOk result (GrowsByRow starting.old starting.new) }
    ensures one { office.new.keyed + office.new.refused ≤ office.old.keyed + office.old.refused + 1 }
    ensures table { office.new.live.table ≡ office.old.live.table }
{
    office.take(row);
    if row.line() == line {
        let marks = starting.take_clock_row(alloc, row.ms(), office.entry())?;
        trunk.take_row(alloc, out, row.ms(), &marks)
    } else {
        starting.take_other_row(row);
        Ok(())
    }
}

// Takes the rows to their stop, and where they end writes what still waits to be heard.
fn sound_rows<R: Read, W: Write>(
    alloc: Global,
    line: LineNo,
    office: &mut Counting,
    starting: &mut Starting,
    trunk: &mut Trunk,
    rows: &mut RowReader<R>,
    out: &mut W,
) -> Result<u128, LiveFault>
    requires fresh { HasCounted office.old [] }
    requires started { starting.old ≡ started_of starting.old.start }
    requires silent { trunk.old.waiting ≡ [] }
    requires none { office.old.keyed + office.old.refused ≡ 0 }
    ensures { SoundsRows (asked_of line starting.old.start) trunk.old.cadence office.old.live.table rows.old
        result (W.contents out.old) (W.contents out.new) }
{
    for _ in 0..MOST_ROWS {
        match rows.next_row()? {
            Some(row) => sound_row(alloc, line, office, starting, trunk, row, out)?,
            None => {
                trunk.write_rest(alloc, out)?;
                return Ok(starting.given_up());
            }
        }
    }
    Err(LiveFault::TooMany)
}

/// Reads a deck as it comes, and writes the sound of a line's trunk (16 bits, the low byte first, 8,000 samples a
/// second). The rows of the line are its clock: each writes 8 samples for each of its ms, silence or keys, and `out` is
/// flushed. The sound of an entry that a row of the line completes begins with the end of that row, or where another
/// one sounds with the end of this; a refused one has none. At the end of the deck what still waits is written whole.
/// Memory does not grow with the rows.
///
/// The cadence is judged before anything is read, so any other fault comes only of a lawful one. On an `Err` what was
/// written before stands.
///
/// What the contract says of bytes it says of readers whose bytes and writers whose contents are known to
/// contracts (byte slices, lists), which those of a process are not.
pub fn sound_deck<R: Read, W: Write>(
    alloc: Global,
    line: LineNo,
    start: Option<LineNo>,
    cadence: Cadence,
    deck: &mut R,
    out: &mut W,
) -> Result<u128, LiveFault>
    ensures judged { JudgesCadence cadence result }
    ensures sounds { SoundsDeck (asked_of line start) cadence (R.remaining deck.old) result
        (W.contents out.old) (W.contents out.new) }
    ensures unread { (fault : CadenceFault) → result ≡ Err (LiveFault.Cadence fault) →
        R.remaining deck.new ≡ R.remaining deck.old }
{
    cadence.check()?;
    let text = read_table(alloc, deck, MOST_DECK_BYTES)?;
    let table = RouteTable::read(alloc, &text)?;
    let mut office = Counting::new(alloc, table)?;
    let mut starting = Starting::new(alloc, start);
    let mut trunk = Trunk::new(alloc, cadence);
    let mut rows = rows_after(deck);
    sound_rows(
        alloc,
        line,
        &mut office,
        &mut starting,
        &mut trunk,
        &mut rows,
        out,
    )
}

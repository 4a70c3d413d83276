// A schedule of turns, on one thread.
ghost use Rattle.std.specs.Prelude.{◌≡◌, IfOk, IsTrue};
ghost use mathlib.Core.List.{IsPrefix};
ghost use Rattle.xb_model.specs.Tapes.{joined_tape};

use std::alloc::{AllocError, Global};
use xb_model::{LineNo, Mark, Row};
use xb_replay::Replay;
use xb_ring::Post;
use xb_routes::RouteTable;

/// What a schedule has made of a line.
#[derive(Debug, Drop)]
pub struct SoFar {
    /// The marks of the line so far.
    pub marks: Vec<Mark>,
    /// Whether all posts have ended.
    pub ended: bool,
}

// A turn of each of these posts; `Err` where memory ran out, and then the turns before it were made.
fn play(replay: &mut Replay<'_>, schedule: &[Post]) -> Result<(), AllocError>
    ensures rows { replay.new.rows ≡ replay.old.rows }
    ensures table { replay.new.table ≡ replay.old.table }
{
    for post in schedule {
        replay.turn(*post)?;
    }
    Ok(())
}

/// What the posts make of a line if they have their turns in this order, given the rows of all lines.
/// Two senders share the work, and one item may wait between two posts. `Err` where memory ran out.
pub fn marks_by_schedule(
    alloc: Global,
    table: &RouteTable,
    rows: &[Row],
    line: LineNo,
    schedule: &[Post],
) -> Result<SoFar, AllocError>
    ensures prefix { let t = table.now in IfOk result (λ so_far.
        IsPrefix so_far.marks.items (joined_tape t.plan t.limits t.routes line rows.now)) }
    ensures whole { let t = table.now in IfOk result (λ so_far. IsTrue so_far.ended →
        so_far.marks.items ≡ joined_tape t.plan t.limits t.routes line rows.now) }
{
    let mut replay = Replay::new(alloc, rows, table, 2, 1)?;
    play(&mut replay, schedule)?;
    let marks = Vec::from_slice(alloc, replay.marks(line))?;
    Ok(SoFar {
        marks,
        ended: replay.ended(),
    })
}

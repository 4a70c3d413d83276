// The chain on one thread.
ghost use Rattle.std.specs.Prelude.{◌≡◌, ℕ, ◌<◌, IfOk};
ghost use Rattle.xb_model.specs.declared.line.TheConstants.{LINES};
ghost use Rattle.xb_model.specs.LawfulLimits.{IsLawful};
ghost use Rattle.xb_model.specs.Tapes.{tape_of, joined_tape, entries_of};
ghost use Rattle.xb_model.specs.Lines.{on_line_of};
ghost use Rattle.xb_model.specs.Image.{image};
ghost use Rattle.xb_routes.specs.Machine.{machine as translate_machine};
ghost use Rattle.xb_sender.specs.Machine.{machine as sender_machine};
ghost use Rattle.xb_images.specs.Images.{closed_rows, dialled_image};
ghost use Rattle.xb_model.specs.Tapes.{marks_at, tapes_of};
ghost use Rattle.xb_tape.specs.GatheredMarks.{AreTapes};

use crate::closes::close_rows;
use crate::loops::Loops;
use std::alloc::{AllocError, Global};
use xb_model::{Dialled, Mark, On, Row, image_of};
use xb_routes::{RouteTable, Translate};
use xb_sender::Sender;
use xb_tape::Tapes;

// What comes of the attempts in rows, each line closed after the last of them.
fn dialled_of_rows(
    alloc: Global,
    rows: &[Row],
    table: &RouteTable,
) -> Result<Vec<On<Dialled>>, AllocError>
    ensures dialled { let t = table.now in
        IfOk result (λ dialled. dialled.items ≡ dialled_image t.plan t.limits (closed_rows rows.now)) }
    ensures lawful { IsLawful table.now.limits }
{
    let mut loops = Loops::new(alloc, table)?;
    loops.take_all(rows)?;
    let closes = close_rows(alloc)?;
    loops.take_all(&closes)?;
    Ok(loops.into_dialled())
}

// What translation and the sender make of that.
fn marks_of_dialled(
    alloc: Global,
    dialled: Vec<On<Dialled>>,
    table: &RouteTable,
) -> Result<Vec<On<Mark>>, AllocError>
    ensures { IfOk result (λ marks. marks.items ≡ image on_line_of sender_machine
        (image on_line_of (translate_machine table.now.routes) dialled.items)) }
{
    let orders = image_of(alloc, &Translate::new(table), dialled)?;
    image_of(alloc, &Sender::new(), orders)
}

// Puts each mark on its line's tape.
fn tapes_of_marks(alloc: Global, marks: &[On<Mark>]) -> Result<Tapes, AllocError>
    ensures { IfOk result (λ tapes. AreTapes tapes marks.now) }
{
    let mut tapes = Tapes::new(alloc)?;
    for mark in marks {
        tapes.push(*mark)?;
    }
    Ok(tapes)
}

/// The tapes of all lines: of each line, one entry for each attempt in its record up to its close,
/// in order. That is the keying of the number that was dialled, by its route in the table, or a
/// refusal with its reason and count. The plan of the numbers and the limits of their pulses are
/// the table's. `Err` where memory ran out.
pub fn key_serial(alloc: Global, rows: &[Row], table: &RouteTable) -> Result<Tapes, AllocError>
    ensures tapes { let t = table.now in
        IfOk result (λ tapes. tapes ≡ tapes_of t.plan t.limits t.routes rows.now) }
    ensures marks { let t = table.now in IfOk result (λ tapes. (l : ℕ) → l < LINES →
        marks_at tapes l ≡ joined_tape t.plan t.limits t.routes l rows.now) }
    ensures entries { let t = table.now in IfOk result (λ tapes. (l : ℕ) → l < LINES →
        entries_of (marks_at tapes l) ≡ tape_of t.plan t.limits t.routes l rows.now) }
{
    let dialled = dialled_of_rows(alloc, rows, table)?;
    let marks = marks_of_dialled(alloc, dialled, table)?;
    tapes_of_marks(alloc, &marks)
}

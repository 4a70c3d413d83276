// From the dial to the ear: calls dialled, keyed by their routes, and heard at the far end.
ghost use Rattle.std.specs.Prelude.{◌≡◌, ◌↔◌, IfOk, IfSome, IsTrue, None};
ghost use Rattle.xb_calls.specs.Dialling.{numbers_on};
ghost use Rattle.xb_calls.specs.Heard.{AreComplete};
ghost use Rattle.xb_calls.specs.Speeds.{Fits};
ghost use Rattle.xb_model.specs.LawfulLimits as limits;
ghost use Rattle.xb_sound.specs.Cadences.{IsSetApart};
ghost use Rattle.xb_together.specs.FarEnd.{FarEndHears, HaveDigits, sound_of_line};

use std::alloc::{AllocError, Global};
use xb_calls::{Call, RowOrder, Speed, rows_of_calls};
use xb_model::{Key, LineNo, Mark};
use xb_routes::RouteTable;
use xb_serial::key_serial;
use xb_sound::{Cadence, samples_of};

// The digits of keys are digits, as those of all keys are.
fn have_digits(marks: &[Mark])
    ensures { HaveDigits marks.now }
{
    for mark in marks {
        if let Mark::Tone(Key::Digit(digit), _) = mark {
            let _value = digit.get();
        }
    }
}

// Whether a speed fits the limits of a table.
fn fits(table: &RouteTable, speed: Speed) -> bool
    ensures yes { IsTrue result ↔ Fits table.now.limits speed }
    ensures lawful { limits.IsLawful table.now.limits }
{
    speed.fits(table.limits()).is_ok()
}

/// The sound of what is keyed for a line, where calls are dialled on all lines at once: of each call the
/// loop's breaks are heard as digits, these are keyed by their route, and the keys sound by the cadence.
/// The samples are exactly those of the line's tape by this cadence. **The digits that are dialled on the
/// line are, by its route, the digits that the far end hears.** `None` where the speed does not fit the
/// limits of the table, and `Err` where memory ran out.
pub fn sound_of_calls(
    alloc: Global,
    table: &RouteTable,
    calls: &[Call],
    speed: Speed,
    line: LineNo,
    cadence: Cadence,
) -> Result<Option<Vec<i16>>, AllocError>
    requires complete { AreComplete table.now.plan calls.now }
    requires cadence { IsSetApart cadence }
    ensures sound { IfOk result (λ sound. IfSome sound (λ samples.
        samples.items ≡ sound_of_line table.now speed calls.now line cadence)) }
    ensures heard { IfOk result (λ sound. IfSome sound (λ samples.
        FarEndHears table.now.routes (numbers_on line calls.now) samples.items)) }
    ensures none { IfOk result (λ sound. sound ≡ None → ¬ Fits table.now.limits speed) }
{
    if !fits(table, speed) {
        return Ok(None);
    }
    let rows = rows_of_calls(alloc, calls, speed, RowOrder::InTurn)?;
    let tapes = key_serial(alloc, &rows, table)?;
    let marks = tapes.marks(line);
    have_digits(marks);
    Ok(Some(samples_of(alloc, marks, cadence)?))
}

// What is heard on the lines of the office in the rows of a deck.
ghost use Rattle.std.specs.Prelude.{◌≡◌, ◌<◌, ◌^◌, IfOk, List, length, map};
ghost use Rattle.xb_model.specs.Records.{Run, joined};
ghost use Rattle.xb_heard.specs.Figures.{times_of};
ghost use Rattle.xb_heard.specs.PlacedRuns.{run_in};
ghost use Rattle.xb_doubts.specs.Heard.{IsHeard, can_dial, heard_on, heard_with, nothing_heard};

use crate::counted::{Counted, counted_of, none_counted};
use std::alloc::{AllocError, Global};
use xb_heard::{PlacedRun, heard_of, runs_by_line, times_of};
use xb_model::{LINES, Limits, LineNo, Plan, Row};

/// What is heard on lines.
#[derive(Clone, Copy)]
pub(crate) struct Heard {
    /// What the attempts are.
    pub(crate) counted: Counted,
    /// Whether a line lasts long enough for a digit.
    pub(crate) has_room: bool,
}

// Nothing is heard.
fn nothing_heard() -> Heard
    ensures { result ≡ nothing_heard }
{
    Heard {
        counted: none_counted(),
        has_room: false,
    }
}

// Whether runs last long enough for a pulse and a pause.
fn can_dial(limits: Limits, runs: &[PlacedRun]) -> bool
    ensures { result ≡ can_dial limits (times_of runs.now).all_ms }
{
    u128::from(limits.pulse_min) + u128::from(limits.pause) <= times_of(runs).all_ms
}

// What is heard on a line with these runs. The plan tells what comes of an attempt, which is not asked.
fn heard_on(alloc: Global, limits: Limits, runs: &[PlacedRun]) -> Result<Heard, AllocError>
    ensures { IfOk result (λ heard. (record_ : List Run) → map run_in runs.now ≡ joined record_
        → heard ≡ heard_on limits record_) }
{
    let attempts = heard_of(alloc, runs, Plan::Seven, limits)?;
    Ok(Heard {
        counted: counted_of(limits, &attempts),
        has_room: can_dial(limits, runs),
    })
}

impl Heard {
    // The same with another line.
    fn with(self, line: Heard) -> Heard
        ensures { result ≡ heard_with self line }
    {
        Heard {
            counted: self.counted.with(line.counted),
            has_room: self.has_room || line.has_room,
        }
    }
}

/// What is heard on all lines in these rows.
pub(crate) fn heard_in(alloc: Global, limits: Limits, rows: &[Row]) -> Result<Heard, AllocError>
    requires { length rows.now < 2 ^ 32 }
    ensures { IfOk result (IsHeard limits rows.now) }
{
    let lines = runs_by_line(alloc, rows)?;
    let mut heard = nothing_heard();
    for number in 0..LINES {
        if let Some(line) = LineNo::new(number) {
            heard = heard.with(heard_on(alloc, limits, lines.get(line))?);
        }
    }
    Ok(heard)
}

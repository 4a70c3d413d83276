// What was heard of a line.
ghost use Rattle.std.specs.Prelude.{◌≡◌, ◌<◌, ◌^◌, List, map, length, IfOk};
ghost use Rattle.xb_model.specs.LineValues.{AreValues};
ghost use Rattle.xb_model.specs.Records.{Run as ChainRun, joined, record_of};
ghost use Rattle.xb_heard.specs.PlacedRuns.{AreOfRecords, placed_runs, run_in};
ghost use Rattle.xb_heard.specs.Places.{ArePlaced, ArePlacedByLine};
ghost use Rattle.xb_heard.specs.Attempts.{attempt_in, heard_attempts};
ghost use Rattle.xb_heard.specs.Report.{Tells};

use crate::attempt::{HeardAttempt, attempts_of_parts};
use crate::joining::take_row;
use crate::parts::{Cut, parts_of, without_idle};
use crate::run::PlacedRun;
use std::alloc::{AllocError, Global};
use xb_model::{Limits, LineNo, PerLine, Plan, Row};

// The makes and breaks of a line up to its first close.
fn placed_runs(alloc: Global, rows: &[Row], line: LineNo) -> Result<Vec<PlacedRun>, AllocError>
    requires { length rows.now < 2 ^ 32 }
    ensures { IfOk result (λ runs. runs.items ≡ placed_runs line rows.now) }
{
    let mut runs = Vec::new(alloc);
    let mut closed = false;
    for (index, row) in rows.iter().enumerate() {
        if row.line() == line {
            take_row(&mut runs, &mut closed, *row, index as u32 + 1)?;
        }
    }
    Ok(runs)
}

// The makes and breaks of each line up to its first close.
fn placed_by_line(alloc: Global, rows: &[Row]) -> Result<PerLine<Vec<PlacedRun>>, AllocError>
    requires { length rows.now < 2 ^ 32 }
    ensures { IfOk result (λ lines.
        AreValues (map (λ runs. runs.items) lines) (λ l. placed_runs l rows.now)) }
{
    let mut lines = PerLine::from_fn(alloc, || Vec::new(alloc))?;
    let mut closed = PerLine::from_fn(alloc, || false)?;
    for (index, row) in rows.iter().enumerate() {
        let line = row.line();
        take_row(
            lines.get_mut(line),
            closed.get_mut(line),
            *row,
            index as u32 + 1,
        )?;
    }
    Ok(lines)
}

/// The makes and breaks of a line up to its first close, each with its place, from the rows of all
/// lines: neighbouring rows of one contact are one run, and rows of 0 ms are none. Idle time before
/// the first make is the first run. `Err` says that memory ran out.
pub fn runs_of_line(alloc: Global, rows: &[Row], line: LineNo) -> Result<Vec<PlacedRun>, AllocError>
    requires { length rows.now < 2 ^ 32 }
    ensures placed { IfOk result (λ runs. runs.items ≡ placed_runs line rows.now) }
    ensures places { IfOk result (λ runs. ArePlaced line rows.now runs.items) }
    ensures runs { IfOk result (λ runs. map run_in runs.items ≡ joined (record_of line rows.now)) }
{
    placed_runs(alloc, rows, line)
}

/// The runs of every line, as `runs_of_line` has them of one, with a single pass over the rows. `Err` says
/// that memory ran out.
pub fn runs_by_line(alloc: Global, rows: &[Row]) -> Result<PerLine<Vec<PlacedRun>>, AllocError>
    requires { length rows.now < 2 ^ 32 }
    ensures placed { IfOk result (λ lines.
        AreValues (map (λ runs. runs.items) lines) (λ l. placed_runs l rows.now)) }
    ensures places { IfOk result (λ lines. ArePlacedByLine rows.now (map (λ runs. runs.items) lines)) }
    ensures runs { IfOk result (λ lines. AreOfRecords rows.now (map (λ runs. runs.items) lines)) }
{
    placed_by_line(alloc, rows)
}

// The attempts that are heard in the runs of a line.
fn heard_attempts<'a>(
    alloc: Global,
    runs: &'a [PlacedRun],
    plan: Plan,
    limits: Limits,
) -> Result<Vec<HeardAttempt<'a>>, AllocError>
    ensures { IfOk result (λ attempts.
        map attempt_in attempts.items ≡ heard_attempts plan limits runs.entry.now) }
{
    let parts = parts_of(alloc, without_idle(runs), limits, Cut::AtReleases)?;
    attempts_of_parts(alloc, &parts, plan, limits)
}

/// The attempts that are heard in the runs of a line, by this plan and these limits, each with its
/// digits, what spoiled them, and what came of it. `Err` says that memory ran out.
pub fn heard_of<'a>(
    alloc: Global,
    runs: &'a [PlacedRun],
    plan: Plan,
    limits: Limits,
) -> Result<Vec<HeardAttempt<'a>>, AllocError>
    ensures heard { IfOk result (λ attempts.
        map attempt_in attempts.items ≡ heard_attempts plan limits runs.entry.now) }
    ensures tells { IfOk result (λ attempts. (record_ : List ChainRun) →
        map run_in runs.entry.now ≡ joined record_
        → Tells plan limits record_ (map attempt_in attempts.items)) }
{
    heard_attempts(alloc, runs, plan, limits)
}

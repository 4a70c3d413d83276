// What is suspicious on each line of the office.
ghost use Rattle.std.specs.Prelude.{◌≡◌, ◌<◌, ◌^◌, IfOk, List, length, map};
ghost use Rattle.std.specs.List.{list_any};
ghost use Rattle.xb_model.specs.Records.{Run, is_make, joined};
ghost use Rattle.xb_heard.specs.PlacedRuns.{run_in};
ghost use Rattle.xb_doubts.specs.Lines.{calls_in, told_of_records};

use crate::counted::any_calls;
use crate::exchanged::{dial_limits, exchanged_rows};
use std::alloc::{AllocError, Global};
use std::marker::Model;
use xb_heard::{PlacedRun, heard_of, runs_by_line};
use xb_model::{Contact, LINES, Limits, LineNo, PerLine, Plan, Row};

/// What is suspicious on a line.
#[derive(Clone, Copy, Debug, PartialEq, Eq)]
pub struct Told {
    /// No make of it is heard, so no attempt begins.
    pub is_quiet: bool,
    /// Its makes and breaks look exchanged.
    pub is_exchanged: bool,
}

// Nothing is.
const NOTHING_TOLD: Told = Told {
    is_quiet: false,
    is_exchanged: false,
};

// Whether one of some runs is a make.
fn has_make(runs: &[PlacedRun]) -> bool
    ensures { result ≡ list_any is_make (map run_in runs.now) }
{
    for run in runs {
        if run.contact == Contact::Make {
            return true;
        }
    }
    false
}

// Whether three clear digits are dialled in an attempt of a line with these runs.
fn calls_in(alloc: Global, limits: Limits, runs: &[PlacedRun]) -> Result<bool, AllocError>
    ensures { IfOk result (λ calls. (record_ : List Run) → map run_in runs.now ≡ joined record_
        → calls ≡ calls_in limits record_) }
{
    let attempts = heard_of(alloc, runs, Plan::Seven, limits)?;
    Ok(any_calls(limits, &attempts))
}

// What is told of a line with these runs, which are those once its makes and breaks are exchanged.
fn told_of(
    alloc: Global,
    limits: Limits,
    runs: &[PlacedRun],
    exchanged: &[PlacedRun],
) -> Result<Told, AllocError>
    ensures { IfOk result (λ told. (record_ other : List Run) → map run_in runs.now ≡ joined record_
        → map run_in exchanged.now ≡ joined other → told ≡ told_of_records limits record_ other) }
{
    let is_call = calls_in(alloc, limits, runs)?;
    let may_be_call = calls_in(alloc, dial_limits(limits), exchanged)?;
    Ok(Told {
        is_quiet: !has_make(runs),
        is_exchanged: !is_call && may_be_call,
    })
}

/// What is suspicious on each line of the office.
#[derive(Drop)]
pub struct Lines {
    lines: PerLine<Told>,
}

impl Model for Lines {
    ghost use Rattle.std.specs.Prelude.{List};
    ghost use Rattle.xb_doubts.specs.declared.lines.Told.{Told};

    ghost Value = { List Told };

    ghost view = { λ lines. lines.lines };
}

impl Lines {
    ghost use Rattle.std.specs.Prelude.{◌≡◌, ◌<◌, ◌≤◌, ◌^◌, IfOk, length};
    ghost use Rattle.xb_doubts.specs.Lines.{nothing_told_of_any, rows_of_others, told_at, told_by, told_in, told_of_number};

    // Nothing is told of any line.
    fn new(alloc: Global) -> Result<Lines, AllocError>
        ensures { IfOk result (λ lines. told_by lines ≡ nothing_told_of_any) }
    {
        let lines = PerLine::from_fn(alloc, || NOTHING_TOLD)?;
        Ok(Lines { lines })
    }

    // What is told of a line.
    fn of(&self, line: LineNo) -> Told
        ensures { result ≡ told_by self.now line }
    {
        *self.lines.get(line)
    }

    /// What is told of the line of this number, if there is one.
    pub fn of_number(&self, number: u16) -> Told
        ensures { result ≡ told_of_number (told_by self.now) number }
    {
        match LineNo::new(number) {
            Some(line) => self.of(line),
            None => NOTHING_TOLD,
        }
    }

    // This is told of a line, and of the others what was.
    fn put(&mut self, line: LineNo, told: Told)
        ensures { told_by self.new ≡ told_at line told (told_by self.old) }
    {
        *self.lines.get_mut(line) = told;
    }

    /// What is suspicious on each line by these limits in these rows. `Err` where memory ran out.
    pub fn of_rows(alloc: Global, limits: Limits, rows: &[Row]) -> Result<Lines, AllocError>
        requires { length rows.now < 2 ^ 32 }
        ensures { IfOk result (λ lines. told_by lines ≡ told_in limits rows.now) }
    {
        let straight = runs_by_line(alloc, rows)?;
        let others = exchanged_rows(alloc, rows)?;
        let exchanged = runs_by_line(alloc, &others)?;
        let mut lines = Lines::new(alloc)?;
        for number in 0..LINES {
            if let Some(line) = LineNo::new(number) {
                let told = told_of(alloc, limits, straight.get(line), exchanged.get(line))?;
                lines.put(line, told);
            }
        }
        Ok(lines)
    }

    /// The rows of the lines that do not look exchanged. `Err` where memory ran out.
    pub fn rows_of_others(&self, alloc: Global, rows: &[Row]) -> Result<Vec<Row>, AllocError>
        ensures few { IfOk result (λ kept. length kept.items ≤ length rows.now) }
        ensures kept { IfOk result (λ kept. kept.items ≡ rows_of_others (told_by self.now) rows.now) }
    {
        let mut kept = Vec::new(alloc);
        for row in rows {
            if !self.of(row.line()).is_exchanged {
                kept.push(*row)?;
            }
        }
        Ok(kept)
    }
}

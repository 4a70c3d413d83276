// What is heard of all lines beside their marks.
ghost use Rattle.std.specs.Prelude.{◌≡◌, ◌<◌, [], ◌∷◌, ◌++◌, List, IfOk, slice_index_or};
ghost use Rattle.xb_model.specs.declared.line.TheConstants.{LINES};
ghost use Rattle.xb_model.specs.LawfulLimits.{IsLawful};
ghost use Rattle.xb_model.specs.Rows.{LoopRow};
ghost use Rattle.xb_routes.specs.Table.{Table};
ghost use Rattle.xb_live.specs.declared.line_hearing.Hearing.{Hearing as LineHearing};
ghost use Rattle.xb_live.specs.Hearings.{HasHeard, row_signals};

use crate::line_hearing::Hearing;
use arrayvec::ArrayVec;
use std::alloc::{AllocError, Global};
use xb_model::{Limits, LineNo, PerLine, Plan, Row, Signal};
use xb_pulse::MOST_SIGNALS;
use xb_routes::RouteTable;

/// What is heard of all lines beside their marks. It takes its memory in `new`, and none after that.
#[derive(Drop)]
pub struct Hearings {
    limits: Limits,
    plan: Plan,
    lines: PerLine<Hearing>,
}

impl Hearings {
    /// Of an office by this table that has taken no row. `Err` where memory ran out.
    pub fn new(alloc: Global, table: &RouteTable) -> Result<Hearings, AllocError>
        ensures { IfOk result (λ hearings. HasHeard table.now hearings []) }
    {
        let limits = table.limits();
        let plan = table.plan();
        let lines = PerLine::from_fn(alloc, || Hearing::fresh(limits, plan))?;
        Ok(Hearings {
            limits,
            plan,
            lines,
        })
    }

    /// Takes one row: its signals.
    pub fn take(&mut self, row: Row) -> ArrayVec<Signal, MOST_SIGNALS>
        ensures heard { (table : Table) (rows : List LoopRow) → HasHeard table self.old rows →
            HasHeard table self.new (rows ++ row ∷ []) }
        ensures signals { (table : Table) (rows : List LoopRow) → HasHeard table self.old rows →
            result.items ≡ row_signals table rows row }
    {
        self.lines
            .get_mut(row.line())
            .take(self.limits, self.plan, row)
    }

    /// What is heard of a line.
    pub fn of(&self, line: LineNo) -> &Hearing
        ensures value { (fallback : LineHearing) → result.now ≡ slice_index_or self.now.lines line fallback }
        ensures below { line < LINES }
    {
        self.lines.get(line)
    }
}

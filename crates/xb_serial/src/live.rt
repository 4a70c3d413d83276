// The chain, one row at a time.
ghost use Rattle.std.specs.Prelude.{◌≡◌, ◌≤◌, [], length};
ghost use Rattle.xb_model.specs.OnLines.{on_line};
ghost use Rattle.xb_serial.specs.declared.line.TheConstants.{MOST_MARKS};

use crate::line::{Line, MOST_MARKS};
use arrayvec::ArrayVec;
use std::alloc::{AllocError, Global};
use std::marker::Model;
use xb_model::{LineNo, Mark, On, PerLine, Row};
use xb_routes::RouteTable;

/// An office whose lines make and break now: each row is taken through all stages at once, and gives
/// the marks that it makes certain.
///
/// It takes its memory in `new`, and none after that: how long it runs, it keeps as much of each line.
#[derive(Drop)]
pub struct Live {
    table: RouteTable,
    lines: PerLine<Line>,
    given: ArrayVec<On<Mark>, MOST_MARKS>,
}

// Clauses see the table, the state of each line, and the marks of the last row.
impl Model for Live {
    ghost use Rattle.xb_serial.specs.Office.{Office};

    ghost Value = { Office };

    ghost view = { λ live. record { table = live.table; lines = live.lines; given = live.given.items } };
}

// Puts marks on their line.
fn put_on(line: LineNo, marks: &[Mark], given: &mut ArrayVec<On<Mark>, MOST_MARKS>)
    requires none { given.old.items ≡ [] }
    requires few { length marks.now ≤ MOST_MARKS }
    ensures { given.new.items ≡ on_line line marks.now }
{
    for what in marks {
        given.push(On { line, what: *what });
    }
}

impl Live {
    ghost use Rattle.std.specs.Prelude.{◌≡◌, ◌≤◌, [], ◌∷◌, ◌++◌, List, IfOk, length};
    ghost use Rattle.std.specs.List.{AllByRecursion};
    ghost use Rattle.xb_model.specs.declared.mark.Mark.{Mark as TapeMark};
    ghost use Rattle.xb_model.specs.declared.on.On.{On as OnTape};
    ghost use Rattle.xb_model.specs.Lines.{row_line, on_line_of};
    ghost use Rattle.xb_model.specs.Rows.{LoopRow};
    ghost use Rattle.xb_serial.specs.declared.line.TheConstants.{MOST_MARKS};
    ghost use Rattle.xb_serial.specs.Office.{HasTaken, IsEntryOrNone};
    ghost use Rattle.xb_serial.specs.Without.{without};

    /// An office by this table that has taken no row. `Err` where memory ran out.
    pub fn new(alloc: Global, table: RouteTable) -> Result<Live, AllocError>
        ensures taken { IfOk result (λ live. HasTaken live [] []) }
        ensures table { IfOk result (λ live. live.table ≡ table) }
    {
        let lines = PerLine::from_fn(alloc, || Line::fresh(&table))?;
        Ok(Live {
            table,
            lines,
            given: ArrayVec::new(),
        })
    }

    /// Takes one row: `given` then has the marks that it gives, one whole entry or none, all of them on
    /// its line. After its close a line gives no more, until it is reopened.
    pub fn take(&mut self, row: Row)
        ensures taken { (rows : List LoopRow) (marks : List (OnTape TapeMark)) →
            HasTaken self.old rows marks →
            HasTaken self.new (rows ++ row ∷ []) (marks ++ self.new.given) }
        ensures line { AllByRecursion (λ mark. on_line_of mark ≡ row_line row) self.new.given }
        ensures entry { IsEntryOrNone self.new.given }
        ensures few { length self.new.given ≤ MOST_MARKS }
        ensures table { self.new.table ≡ self.old.table }
    {
        let line = row.line();
        self.given.clear();
        if let Some(marks) = self.lines.get_mut(line).take(&self.table, row) {
            put_on(line, &marks, &mut self.given);
        }
    }

    /// Forgets the record of a line: its next row begins a new one. So a line that was closed, or left in
    /// the middle of a call, may be used again.
    pub fn reopen(&mut self, line: LineNo)
        ensures taken { (rows : List LoopRow) (marks : List (OnTape TapeMark)) →
            HasTaken self.old rows marks →
            HasTaken self.new (without row_line line rows) (without on_line_of line marks) }
        ensures given { self.new.given ≡ self.old.given }
        ensures table { self.new.table ≡ self.old.table }
    {
        *self.lines.get_mut(line) = Line::fresh(&self.table);
    }

    /// The marks that the last row gave, in order.
    pub fn given(&self) -> &[On<Mark>]
        ensures value { result.now ≡ self.now.given }
        ensures few { length self.now.given ≤ MOST_MARKS }
    {
        &self.given
    }
}

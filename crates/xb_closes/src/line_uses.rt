// Which lines have rows, and which are closed.
use crate::line_use::LineUse;
use std::alloc::{AllocError, Global};
use std::marker::Model;
use xb_model::{LINES, LineNo, PerLine, Row, RowFault};

/// What the rows so far leave of each line: which rows are heard, and which closes are lacking at the
/// end.
#[derive(Drop)]
pub struct LineUses {
    uses: PerLine<LineUse>,
    // no line below it is open
    next: u16,
}

impl Model for LineUses {
    ghost use Rattle.std.specs.Prelude.{◌≡◌, ◌≤◌, ◌<◌, ℕ, List, false};
    ghost use Rattle.xb_model.specs.declared.line.TheConstants.{LINES};
    ghost use Rattle.xb_closes.specs.declared.line_use.LineUse.{LineUse};
    ghost use Rattle.xb_closes.specs.LineUses.{use_at, is_open_use};

    ghost Value = { List LineUse };

    ghost view = { λ lines. lines.uses };

    ghost invariant = { λ lines. (lines.next ≤ LINES)
        × ((l : ℕ) → l < lines.next → is_open_use (use_at lines.uses l) ≡ false) };
}

impl LineUses {
    ghost use Rattle.std.specs.Prelude.{◌≡◌, ◌<◌, ◌++◌, ◌∷◌, [], ℕ, List, Option, None, IfOk, IfSome, IfNone, if◌then◌else◌, true, false};
    ghost use Rattle.xb_model.specs.Rows.{LoopRow};
    ghost use Rattle.xb_model.specs.declared.fault.RowFault.{RowFault};
    ghost use Rattle.xb_model.specs.declared.line.TheConstants.{LINES};
    ghost use Rattle.xb_closes.specs.Fed.{fed};
    ghost use Rattle.xb_closes.specs.Left.{left};
    ghost use Rattle.xb_closes.specs.LineUses.{use_at, is_open_use};

    /// No line has rows. `Err` where memory ran out.
    pub fn new(alloc: Global) -> Result<LineUses, AllocError>
        ensures { IfOk result (λ uses. (rows : List LoopRow) (stop : Option RowFault) →
            left uses rows stop ≡ fed rows stop) }
    {
        let uses = PerLine::from_fn(alloc, || LineUse::NoRows)?;
        Ok(LineUses { uses, next: 0 })
    }

    /// Takes one row more, and tells whether it is fed: it is unless its line is closed.
    pub fn hears(&mut self, row: Row) -> bool
        ensures { (rows : List LoopRow) (stop : Option RowFault) →
            left self.old (row ∷ rows) stop ≡ (if result then row ∷ [] else []) ++ left self.new rows stop }
    {
        let line_use = self.uses.get_mut(row.line());
        let before = *line_use;
        *line_use = before.after(row.contact());
        self.next = 0;
        before.is_heard()
    }

    // The first line that is open.
    fn first_open(&self) -> Option<LineNo>
        ensures some { IfSome result (λ n. (n < LINES) × (is_open_use (use_at self.now n) ≡ true)
            × ((l : ℕ) → l < n → is_open_use (use_at self.now l) ≡ false)) }
        ensures none { IfNone result ((l : ℕ) → l < LINES → is_open_use (use_at self.now l) ≡ false) }
    {
        for number in self.next..LINES {
            let line = LineNo::new(number)?;
            if self.uses.get(line).is_open() {
                return Some(line);
            }
        }
        None
    }

    /// After the last row: closes the first open line, and gives its close. `None` where no line is
    /// open, or where the rows were stopped by a fault: they get no closes.
    pub fn close_next(&mut self, stop: Option<RowFault>) -> Option<Row>
        ensures some { IfSome result (λ row. left self.old [] stop ≡ row ∷ left self.new [] stop) }
        ensures none { IfNone result (left self.old [] stop ≡ []) }
    {
        match stop {
            Some(_) => return None,
            None => {}
        }
        let line = self.first_open()?;
        *self.uses.get_mut(line) = LineUse::Closed;
        self.next = line.get();
        Some(Row::close(line))
    }
}

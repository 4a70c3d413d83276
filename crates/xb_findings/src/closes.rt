// In which text line each line of the office was closed.
use std::alloc::{AllocError, Global};
use std::marker::Model;
use xb_model::{LineNo, PerLine};

/// The text line that closed each line of the office, where one did.
#[derive(Drop)]
pub(crate) struct Closes {
    lines: PerLine<Option<usize>>,
}

impl Model for Closes {
    ghost use Rattle.std.specs.Prelude.{ℕ, List, Option};

    ghost Value = { List (Option ℕ) };

    ghost view = { λ closes. closes.lines };
}

impl Closes {
    ghost use Rattle.std.specs.Prelude.{◌≡◌, IfOk};
    ghost use Rattle.xb_findings.specs.Records.{closed_by, closed_of, no_closes};

    /// No line is closed. `Err` where memory ran out.
    pub(crate) fn new(alloc: Global) -> Result<Closes, AllocError>
        ensures { IfOk result (λ closes. closed_of closes ≡ no_closes) }
    {
        let lines = PerLine::from_fn(alloc, || None)?;
        Ok(Closes { lines })
    }

    /// The text line that closed a line.
    pub(crate) fn closed_in(&self, line: LineNo) -> Option<usize>
        ensures { result ≡ closed_of self.now line }
    {
        *self.lines.get(line)
    }

    /// Text line `n` closes a line, unless an earlier one did.
    pub(crate) fn close(&mut self, line: LineNo, n: usize)
        ensures { closed_of self.new ≡ closed_by (closed_of self.old) line n }
    {
        match self.closed_in(line) {
            Some(_) => {}
            None => *self.lines.get_mut(line) = Some(n),
        }
    }
}

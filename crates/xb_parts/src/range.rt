// Ranges of lines, and their rows.
ghost use Rattle.std.specs.Prelude.{◌≡◌, ◌≤◌, ◌<◌, ◌↔◌, ◌&&◌, nat_le, nat_lt, IfOk};
ghost use Rattle.xb_parts.specs.Ranges.{rows_in};

use std::alloc::{AllocError, Global};
use xb_model::{LineNo, Row};

/// The lines from `first` on, up to but without `end`.
#[derive(Clone, Copy, Debug, PartialEq, Eq)]
pub struct LineRange {
    /// The first line.
    pub first: u16,
    /// The line after the last.
    pub end: u16,
}

impl LineRange {
    /// Whether a line is in the range.
    pub fn has(self, line: LineNo) -> bool
        ensures { result ≡ (nat_le self.first line && nat_lt line self.end) }
    {
        let line = line.get();
        self.first <= line && line < self.end
    }
}

/// The rows of a range, in their order. `Err` says that memory ran out.
pub fn part_of(alloc: Global, rows: &[Row], range: LineRange) -> Result<Vec<Row>, AllocError>
    ensures { IfOk result (λ part. part.items ≡ rows_in range rows.now) }
{
    rows.iter()
        .copied()
        .filter(|row| range.has(row.line()))
        .collect(alloc)
}

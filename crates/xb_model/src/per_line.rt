// A value for each line of the office.
ghost use Rattle.std.specs.Prelude.{◌≡◌, ◌<◌, length, slice_index_or, IfOk};
ghost use Rattle.std.specs.Borrow.{sem};
ghost use Rattle.std.specs.List.{All, enumerate_from};
ghost use Rattle.xb_model.specs.declared.line.TheConstants.{LINES};

use crate::line::{LINES, LineNo};
use crate::per_line_iter::EachLine;
use std::alloc::{AllocError, Global};
use std::marker::Model;

/// One value for each line of the office. Clauses see the list of them, from line 0 on.
#[derive(Drop)]
pub struct PerLine<T> {
    values: Vec<T>,
}

impl<T> Model for PerLine<T> {
    ghost use Rattle.std.specs.Prelude.{◌≡◌, List, length};
    ghost use Rattle.xb_model.specs.declared.line.TheConstants.{LINES};

    ghost Value = { List T };

    ghost view = { λ lines. lines.values.items };

    ghost invariant = { λ lines. length lines.values.items ≡ LINES };
}

impl<T> PerLine<T> {
    ghost use Rattle.xb_model.specs.LineValues.{LendsLine};

    /// Each line's value is what a call of `make` returns. The room for all lines is taken first, and
    /// `Err` says that memory ran out.
    pub fn from_fn<F: Fn() -> T>(alloc: Global, make: F) -> Result<PerLine<T>, AllocError>
    where
        T: Drop,
        requires { F.IsAlwaysCallable make }
        ensures made { IfOk result (λ values. All (F.post make) values) }
        ensures lines { IfOk result (λ values. length values ≡ LINES) }
    {
        let mut values = Vec::with_capacity(alloc, usize::from(LINES))?;
        for _line in 0..LINES {
            values.push_reserved(make());
        }
        Ok(PerLine { values })
    }

    /// The value of a line.
    pub fn get(&self, line: LineNo) -> &T
        ensures value { (fallback : T) → result.now ≡ slice_index_or self.now line fallback }
        ensures lines { length self.now ≡ LINES }
        ensures below { line < LINES }
    {
        &self.values[usize::from(line.get())]
    }

    /// Gives each line with its value, the lines ascending.
    pub fn iter(&self) -> EachLine<'_, T>
        ensures left { result ≡ enumerate_from 0 self.now }
        ensures lines { length self.now ≡ LINES }
    {
        EachLine {
            number: 0,
            values: &self.values,
        }
    }

    /// The value of a line, to be changed.
    pub fn get_mut(&mut self, line: LineNo) -> &mut T
        ensures* writes_back { sem 𝓛 (LendsLine T.row self.entry line result) }
        ensures value { (fallback : T) → result.now ≡ slice_index_or self.old line fallback }
        ensures lines { length self.old ≡ LINES }
        ensures below { line < LINES }
    {
        &mut self.values[usize::from(line.get())]
    }
}

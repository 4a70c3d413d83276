// The tapes of all lines.
ghost use Rattle.std.specs.Prelude.{◌≡◌, ◌<◌, ℕ, [], ◌∷◌, ◌++◌, length, slice_set, slice_get};
ghost use Rattle.std.specs.Prelude.{IfOk, OnOk, OnErr, option_map};
ghost use Rattle.std.specs.List.{enumerate_from};
ghost use Rattle.xb_model.specs.declared.line.TheConstants.{LINES};
ghost use Rattle.xb_model.specs.Tapes.{entries_of, marks_at};

use crate::entries::entries;
use crate::tapes_iter::EachTape;
use std::alloc::{AllocError, Global};
use std::marker::Model;
use xb_model::{Key, LineNo, Mark, On, PerLine};

/// A tape for each of the 10,000 lines of the office: the line's marks, in order. Clauses see the
/// lines' lists of marks, from line 0 on.
#[derive(Drop)]
pub struct Tapes {
    lines: PerLine<Vec<Mark>>,
}

impl Model for Tapes {
    ghost use Rattle.std.specs.Prelude.{◌≡◌, List, map, length};
    ghost use Rattle.xb_model.specs.declared.line.TheConstants.{LINES};
    ghost use Rattle.xb_model.specs.declared.mark.Mark.{Mark as TapeMark};

    ghost Value = { List (List TapeMark) };

    ghost view = { λ tapes. map (λ marks. marks.items) tapes.lines };

    ghost invariant = { λ tapes. length tapes.lines ≡ LINES };
}

impl Tapes {
    /// Tapes without marks. `Err` says that memory ran out.
    pub fn new(alloc: Global) -> Result<Tapes, AllocError>
        ensures lines { IfOk result (λ tapes. length tapes ≡ LINES) }
        ensures blank { IfOk result (λ tapes. (l : ℕ) → marks_at tapes l ≡ []) }
    {
        let lines = PerLine::from_fn(alloc, || Vec::new(alloc))?;
        Ok(Tapes { lines })
    }

    /// The marks of a line.
    pub fn marks(&self, line: LineNo) -> &[Mark]
        ensures value { result.now ≡ marks_at self.now line }
        ensures lines { length self.now ≡ LINES }
    {
        self.lines.get(line)
    }

    /// Gives each line with its marks, the lines ascending.
    pub fn lines(&self) -> EachTape<'_>
        ensures left { result ≡ enumerate_from 0 self.now }
        ensures lines { length self.now ≡ LINES }
    {
        EachTape {
            number: 0,
            lines: &self.lines,
        }
    }

    /// The number of entries of a line: of its marks that end one.
    pub fn entries(&self, line: LineNo) -> usize
        ensures { result ≡ length (entries_of (marks_at self.now line)) }
    {
        entries(self.marks(line)).count()
    }

    /// The marks of entry `k` of a line, from 0, up to and with the mark that ends it; `None`
    /// where the line has no such entry. Marks after the last ending mark belong to no entry.
    pub fn entry(&self, line: LineNo, k: usize) -> Option<&[Mark]>
        ensures { option_map (λ marks. marks.now) result
            ≡ slice_get (entries_of (marks_at self.now line)) k }
    {
        entries(self.marks(line)).nth(k)
    }

    /// Puts a mark after those of its line. On an `Err`, which says that memory ran out, the tapes
    /// are unchanged.
    pub fn push(&mut self, mark: On<Mark>) -> Result<(), AllocError>
        ensures ok { OnOk result
            (self.new ≡ slice_set self.old mark.line (marks_at self.old mark.line ++ mark.what ∷ [])) }
        ensures err { OnErr result (self.new ≡ self.old) }
        ensures lines { length self.old ≡ LINES }
        ensures line { mark.line < LINES }
    {
        // names a type inside `Mark`, without which the check has no plan for the borrow of `lines`
        let _key: Option<Key> = None;
        self.lines.get_mut(mark.line).push(mark.what)?;
        Ok(())
    }
}

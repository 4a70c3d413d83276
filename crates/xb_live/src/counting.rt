// A live office that counts its entries.
ghost use Rattle.std.specs.Prelude.{◌≡◌, ◌+◌, ◌<◌, ◌≤◌, length, slice_index_or, slice_set, vec_capacity};
ghost use Rattle.xb_model.specs.declared.line.TheConstants.{LINES};
ghost use Rattle.xb_tape.specs.GatheredMarks.{whats_of};

use std::alloc::{AllocError, Global};
use std::marker::Model;
use xb_model::{LineNo, Mark, On, PerLine, Row};
use xb_routes::RouteTable;
use xb_serial::{Live, MOST_MARKS};
use xb_tape::is_refused;

/// The most entries that are counted: more than a stream of rows can give in ten thousand years.
pub const MOST_ENTRIES: usize = usize::MAX;

/// A live office that numbers the entries of each line, and counts those of all lines.
///
/// It takes its memory in `new`, and none after that.
#[derive(Drop)]
pub struct Counting {
    live: Live,
    numbers: PerLine<usize>,
    keyed: usize,
    refused: usize,
    entry: Vec<Mark>,
}

// Clauses see the office, the counts, and the marks of the entry that the last row completed.
impl Model for Counting {
    ghost use Rattle.std.specs.Prelude.{◌≡◌, ◌≤◌, ◌+◌, ℕ, slice_index_or, vec_capacity};
    ghost use Rattle.xb_serial.specs.declared.line.TheConstants.{MOST_MARKS};
    ghost use Rattle.xb_live.specs.Counting.{Counted};

    ghost Value = { Counted };

    ghost view = { λ c. record {
      live = c.live;
      numbers = c.numbers;
      keyed = c.keyed;
      refused = c.refused;
      entry = c.entry.items;
    } };

    ghost invariant = { λ c. (MOST_MARKS ≤ vec_capacity c.entry)
        × ((l : ℕ) → slice_index_or c.numbers l 0 ≤ c.keyed + c.refused) };
}

// Puts the marks of a row, without their line, in the place of the earlier ones.
fn keep_marks(given: &[On<Mark>], entry: &mut Vec<Mark>)
    requires room { length given.now ≤ vec_capacity entry.old }
    ensures marks { entry.new.items ≡ whats_of given.now }
    ensures room { vec_capacity entry.new ≡ vec_capacity entry.old }
{
    entry.clear();
    for mark in given {
        entry.push_reserved(mark.what);
    }
}

// Counts an entry more of a line: its number among them.
fn count_on(numbers: &mut PerLine<usize>, line: LineNo) -> usize
    requires { slice_index_or numbers.old line 0 < usize.MAX }
    ensures number { result ≡ slice_index_or numbers.old line 0 + 1 }
    ensures numbers { numbers.new ≡ slice_set numbers.old line result }
    ensures lines { length numbers.old ≡ LINES }
    ensures below { line < LINES }
{
    let number = numbers.get_mut(line);
    *number += 1;
    *number
}

impl Counting {
    ghost use Rattle.std.specs.Prelude.{[], ◌∷◌, ◌++◌, List, IfOk};
    ghost use Rattle.xb_model.specs.Rows.{LoopRow};
    ghost use Rattle.xb_live.specs.Entries.{entries_of_rows, numbered_after};
    ghost use Rattle.xb_live.specs.Counting.{HasCounted, entry_of, numbered_by};
    ghost use Rattle.xb_live.specs.declared.counting.TheConstants.{MOST_ENTRIES};

    /// An office by this table that has taken no row. `Err` where memory ran out.
    pub fn new(alloc: Global, table: RouteTable) -> Result<Counting, AllocError>
        ensures counted { IfOk result (λ office. HasCounted office []) }
        ensures table { IfOk result (λ office. office.live.table ≡ table) }
        ensures none { IfOk result (λ office. office.keyed + office.refused ≡ 0) }
    {
        let live = Live::new(alloc, table)?;
        let numbers = PerLine::from_fn(alloc, || 0usize)?;
        let entry = Vec::with_capacity(alloc, MOST_MARKS)?;
        Ok(Counting {
            live,
            numbers,
            keyed: 0,
            refused: 0,
            entry,
        })
    }

    /// Takes one row: the number of the entry that it completes, among those of its line, if it does.
    pub fn take(&mut self, row: Row) -> Option<usize>
        requires { self.old.keyed + self.old.refused < MOST_ENTRIES }
        ensures counted { (rows : List LoopRow) → HasCounted self.old rows →
            HasCounted self.new (rows ++ row ∷ []) }
        ensures completed { (rows : List LoopRow) → HasCounted self.old rows →
            entries_of_rows self.old.live.table (rows ++ row ∷ [])
            ≡ entries_of_rows self.old.live.table rows ++ entry_of row.line self.new.entry }
        ensures number { (rows : List LoopRow) → HasCounted self.old rows →
            numbered_after (entries_of_rows self.old.live.table rows) (entry_of row.line self.new.entry)
            ≡ numbered_by row.line self.new.entry result }
        ensures one { self.new.keyed + self.new.refused ≤ self.old.keyed + self.old.refused + 1 }
        ensures table { self.new.live.table ≡ self.old.live.table }
    {
        self.live.take(row);
        keep_marks(self.live.given(), &mut self.entry);
        if self.entry.is_empty() {
            return None;
        }
        let number = count_on(&mut self.numbers, row.line());
        if is_refused(&self.entry) {
            self.refused += 1;
            Some(number)
        } else {
            self.keyed += 1;
            Some(number)
        }
    }

    /// The marks of the entry that the last row completed; none where it completed none.
    pub fn entry(&self) -> &[Mark]
        ensures { result.now ≡ self.now.entry }
    {
        &self.entry
    }

    /// How many entries are keyed.
    pub fn keyed(&self) -> usize
        ensures { result ≡ self.now.keyed }
    {
        self.keyed
    }

    /// How many entries are refused.
    pub fn refused(&self) -> usize
        ensures { result ≡ self.now.refused }
    {
        self.refused
    }
}

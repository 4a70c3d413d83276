// An entry of a page.
ghost use Rattle.std.specs.Prelude.{◌≡◌};
ghost use Rattle.xb_model.specs.Page.{is_refused, last_refusal};
ghost use Rattle.xb_page.specs.Entries.{entry_with};

use std::marker::Model;
use xb_model::{LineNo, Mark, Reason};

/// An entry of a page: its line, its number and its marks. A keyed one has the trunk group and each key
/// with its two frequencies, a refused one its refusal alone.
#[derive(Drop)]
pub struct PageEntry {
    line: LineNo,
    number: usize,
    marks: Vec<Mark>,
}

impl Model for PageEntry {
    ghost use Rattle.xb_page.specs.Entries.{Entry};

    ghost Value = { Entry };

    ghost view = { λ e. record { line = e.line; number = e.number; marks = e.marks.items } };
}

impl PageEntry {
    pub(crate) fn new(line: LineNo, number: usize, marks: Vec<Mark>) -> PageEntry
        ensures { result ≡ entry_with line number marks.items }
    {
        PageEntry {
            line,
            number,
            marks,
        }
    }

    /// The line of the office.
    pub fn line(&self) -> LineNo
        ensures { result ≡ self.now.line }
    {
        self.line
    }

    /// The number of the entry on its line, counted from 1.
    pub fn number(&self) -> usize
        ensures { result ≡ self.now.number }
    {
        self.number
    }

    /// The marks.
    pub fn marks(&self) -> &[Mark]
        ensures { result.now ≡ self.now.marks }
    {
        &self.marks
    }

    /// The reason and the count of a refused entry; `None` of a keyed one.
    pub fn refusal(&self) -> Option<(Reason, u8)>
        ensures { result ≡ last_refusal self.now.marks }
    {
        match self.marks.last() {
            Some(Mark::Refused(reason, heard)) => Some((*reason, *heard)),
            _ => None,
        }
    }

    /// Whether the entry is refused.
    pub fn is_refused(&self) -> bool
        ensures { result ≡ is_refused self.now.marks }
    {
        self.refusal().is_some()
    }
}

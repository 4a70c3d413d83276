// The keyings of a line, which wait for the winks of another one, where there is one.
ghost use Rattle.std.specs.Prelude.{◌≡◌, IfOk, OnOk};
ghost use Rattle.xb_live.specs.Starting.{GrowsByRow, HasRoom, call_in, clock_taken, keyed_in, marks_given, other_taken, started_of, up_at_end, up_with};

use std::alloc::{AllocError, Global};
use std::marker::Model;
use xb_model::{LineNo, Mark, Row};
use xb_tape::is_refused;
use xb_trunk::{Fate, StartDial};

/// The keyings of a line, which wait for the winks of another one, where there is one.
#[derive(Drop)]
pub(crate) struct Starting {
    start: Option<LineNo>,
    dial: StartDial,
    given_up: u64,
}

impl Model for Starting {
    ghost use Rattle.xb_live.specs.Starting.{Started};

    ghost Value = { Started };

    ghost view = { λ s. record { start = s.start; dial = s.dial; given_up = s.given_up } };
}

// The marks of an entry that waits for a start: a refused one has none.
fn call_of(entry: &[Mark]) -> &[Mark]
    ensures { result.now ≡ call_in entry.now }
{
    if is_refused(entry) { &[] } else { entry }
}

// The marks of an entry.
fn marks_of(alloc: Global, entry: &[Mark]) -> Result<Vec<Mark>, AllocError>
    ensures { IfOk result (λ marks. marks.items ≡ entry.now) }
{
    let mut marks = Vec::new(alloc);
    marks.extend_from_slice(entry)?;
    Ok(marks)
}

impl Starting {
    /// No row came, and none waits.
    pub(crate) fn new(alloc: Global, start: Option<LineNo>) -> Starting
        ensures { result ≡ started_of start }
    {
        Starting {
            start,
            dial: StartDial::new(alloc),
            given_up: 0,
        }
    }

    /// Takes a row of the line, of so many ms, that completes this entry, and gives the marks that the trunk takes with
    /// it.
    pub(crate) fn take_clock_row(
        &mut self,
        alloc: Global,
        ms: u32,
        entry: &[Mark],
    ) -> Result<Vec<Mark>, AllocError>
        requires { HasRoom self.old }
        ensures state { OnOk result (self.new ≡ clock_taken self.old ms entry.now) }
        ensures marks { IfOk result (λ marks. marks.items ≡ marks_given self.old ms entry.now) }
    {
        match self.start {
            None => marks_of(alloc, entry),
            Some(_) => {
                let settled = self.dial.take_clock_row(alloc, ms, call_of(entry))?;
                match settled.fate {
                    Fate::Keyed => Ok(settled.marks),
                    Fate::GivenUp => {
                        self.given_up += 1;
                        Ok(Vec::new(alloc))
                    }
                    Fate::Idle | Fate::Waits => Ok(Vec::new(alloc)),
                }
            }
        }
    }

    /// Takes a row of another line.
    pub(crate) fn take_other_row(&mut self, row: Row)
        requires { HasRoom self.old }
        ensures { self.new ≡ other_taken self.old row }
    {
        let Some(start) = self.start else {
            return;
        };
        if row.line() == start {
            self.dial.take_lead_row(row.contact(), row.ms());
        }
    }

    /// How many keyings are given up, where no row follows.
    pub(crate) fn given_up(&self) -> u128
        ensures { result ≡ up_at_end self.now }
    {
        match self.start {
            None => 0,
            Some(_) => u128::from(self.given_up) + self.dial.waiting() as u128,
        }
    }
}

// Sources of rows.
ghost use Rattle.std.specs.Prelude.{◌≡◌};
ghost use Rattle.xb_model.specs.Sources.{ended_by};

use crate::fault::RowFault;
use crate::row::Row;
use std::marker::Model;

/// A list of rows and a stop after them, which is an end or a fault.
pub trait RowSource {
    ghost use Rattle.xb_model.specs.Sources.{Rest, Gives};

    /// The rows that are left, the stop after them, and whether a call may still allocate.
    ghost rest: { Self → Rest };

    /// The next row; `None` at an end, or the fault that stops the rows. Each call after the stop
    /// returns the stop again. Until then a source that allocates may run out of memory: its stop is
    /// then `RowFault::NoMemory`, for good.
    fn next_row(&mut self) -> Result<Option<Row>, RowFault>
        ensures { Gives (rest self.old) result (rest self.new) };
}

/// The rows of a list, as a source that stops with an end and allocates nothing.
#[derive(Drop)]
pub struct Listed<'a> {
    rows: &'a [Row],
}

impl<'a> Model for Listed<'a> {
    ghost use Rattle.xb_model.specs.Sources.{Rest, ended_by};

    ghost Value = { Rest };

    ghost view = { λ l. ended_by l.rows.now };
}

impl<'a> Listed<'a> {
    /// A source of these rows, which stops with an end.
    pub fn new(rows: &'a [Row]) -> Listed<'a>
        ensures { result ≡ ended_by rows.now }
    {
        Listed { rows }
    }
}

impl<'a> RowSource for Listed<'a> {
    ghost rest = { λ l. l };

    fn next_row(&mut self) -> Result<Option<Row>, RowFault> {
        match self.rows.split_first() {
            Some((row, rest)) => {
                self.rows = rest;
                Ok(Some(*row))
            }
            None => Ok(None),
        }
    }
}

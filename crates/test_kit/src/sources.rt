// Sources of rows.
use xb_model::{Row, RowFault, RowSource};

/// A source that gives these rows, and then stops so.
#[derive(Drop)]
pub struct Stopping<'a> {
    /// The rows that are left.
    pub rows: &'a [Row],
    /// The fault that stops them, if it is not an end.
    pub stop: Option<RowFault>,
}

impl<'a> RowSource for Stopping<'a> {
    ghost use Rattle.std.specs.Prelude.{false};

    ghost rest = { λ s. record { rows = s.rows.now; stop = s.stop; may_allocate = false } };

    fn next_row(&mut self) -> Result<Option<Row>, RowFault> {
        match self.rows.split_first() {
            Some((row, rest)) => {
                self.rows = rest;
                Ok(Some(*row))
            }
            None => match self.stop {
                Some(fault) => Err(fault),
                None => Ok(None),
            },
        }
    }
}

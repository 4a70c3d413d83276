// Rows that are counted, and that may end with a fault.
use std::sync::atomic::{AtomicU64, Ordering};
use test_kit::sources::Stopping;
use xb_model::{Row, RowFault, RowSource};

/// A source that counts how often it is asked for a row.
#[derive(Drop)]
pub struct Counted<'a> {
    /// The source.
    pub source: Stopping<'a>,
    /// How often it was asked.
    pub calls: &'a AtomicU64,
}

impl<'a> RowSource for Counted<'a> {
    ghost use Rattle.std.specs.Prelude.{false};

    ghost rest = { λ s. record { rows = s.source.rows.now; stop = s.source.stop; may_allocate = false } };

    fn next_row(&mut self) -> Result<Option<Row>, RowFault> {
        self.calls.fetch_add(1, Ordering::SeqCst);
        self.source.next_row()
    }
}

// Where a reader of rows stands.
ghost use Rattle.std.specs.Prelude.{◌≡◌};
ghost use Rattle.xb_rows.specs.Scanning.{CanCount, place_after, place_resumed};

use xb_model::{Row, RowFault};

// Where a reader of rows stands.
#[derive(Clone, Copy)]
pub(crate) enum Place {
    /// Before the header.
    Header,
    /// After the header and so many records.
    After(u64),
    /// At its stop, a fault or the end.
    Stopped(Option<RowFault>),
}

// The place after a step from the one after so many records.
pub(crate) fn place_after(taken: u64, step: &Result<Option<Row>, RowFault>) -> Place
    requires { CanCount taken step.now }
    ensures { result ≡ place_after taken step.now }
{
    match step {
        Ok(Some(_)) => Place::After(taken + 1),
        Ok(None) => Place::Stopped(None),
        Err(fault) => Place::Stopped(Some(*fault)),
    }
}

// The place after so many records, once the last one was read again. There it is, and a slice does not
// fail, so any other result says that memory ran out.
pub(crate) fn place_resumed(taken: u64, again: &Result<bool, RowFault>) -> Place
    ensures { result ≡ place_resumed taken again.now }
{
    match again {
        Ok(true) => Place::After(taken),
        _ => Place::Stopped(Some(RowFault::NoMemory)),
    }
}

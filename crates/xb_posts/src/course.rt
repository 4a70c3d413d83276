// How far a feed has come.
use xb_model::RowFault;

/// How far a feed has come.
#[derive(Clone, Copy, Debug, PartialEq, Eq)]
pub(crate) enum Course {
    /// The source has not stopped.
    Going,
    /// The source has stopped, at an end or a fault.
    Stopped(Option<RowFault>),
    /// The End was sent.
    Over(Option<RowFault>),
}

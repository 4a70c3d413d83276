// The statuses of the calls that other libraries do not have.

/// There is too little room.
pub(crate) const NO_ROOM: u32 = 7;

/// These are not the marks of an entry.
pub(crate) const WRONG_MARKS: u32 = 24;

/// A time of the cadence is out of its range.
pub(crate) const WRONG_CADENCE: u32 = 25;

/// The character dials no digit.
pub(crate) const WRONG_CHARACTER: u32 = 26;

// What a turn of a post did.

/// What a turn did: one event or none.
#[derive(Clone, Copy, Debug, PartialEq, Eq)]
pub enum Turn {
    /// An item is wanted, and the input ring gave none.
    Idle,
    /// An item is pending, and no room for it was found.
    Blocked,
    /// One event was made.
    Moved,
    /// The End was sent by an earlier turn.
    Ended,
}

// Why what is heard is not taken.

/// Why what is heard is not taken. The first in this order is returned.
#[derive(Clone, Copy)]
pub enum NotHeard {
    /// The table is none that was opened: its plan, its limits or the count of its routes is none.
    NotOpened,
    /// The line is over 9999.
    Line,
    /// The digit is over 9.
    Digit,
    /// The record of the line has ended.
    Closed,
    /// The line is seized already.
    Seized,
    /// The line is not seized.
    NotSeized,
    /// There are more marks than there is room for. Room for 24 is always enough.
    Room,
}

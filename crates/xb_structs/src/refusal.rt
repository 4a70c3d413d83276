// Why a row is not taken.

/// Why a row is not taken. The first in this order is returned.
#[derive(Clone, Copy)]
pub enum Refusal {
    /// The table is none that was opened: its plan, its limits or the count of its routes is none.
    NotOpened,
    /// The line is over 9999.
    Line,
    /// The state is none of the letters `M`, `B` and `C`.
    State,
    /// The time is over 86,400,000 ms, or a close has one.
    Ms,
    /// The row gives more marks, or signals, than there is room for. Room for 24 marks is always enough.
    Room,
}

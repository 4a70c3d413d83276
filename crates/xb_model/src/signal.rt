// What the pulse stage hears.

/// The most pulses of a digit: those of digit 0.
pub const MOST_PULSES: u8 = 10;

/// Where the count of a train's breaks stops: one more than the pulses of any digit.
pub const MANY_BREAKS: u8 = MOST_PULSES + 1;

/// What is heard on a line.
#[derive(Clone, Copy, Debug, PartialEq, Eq, Default)]
pub enum Signal {
    /// An attempt's first make: a register is seized, and the attempt begins.
    #[default]
    Seize,
    /// A pulse train: the number of its breaks, at most 11, and whether one of its breaks or of
    /// its makes but the last is out of its limits.
    Digit(u8, bool),
    /// A make reached the time-out.
    TimeOut,
    /// The line is released.
    Release,
    /// The line's record ends.
    Close,
}

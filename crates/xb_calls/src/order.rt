// The order of the rows of several lines.

/// In which order the rows of several lines stand.
#[derive(Clone, Copy, Debug, PartialEq, Eq)]
pub enum RowOrder {
    /// All rows of a line, and then those of the next, the lines ascending.
    ByLine,
    /// The first row of each line, then the second of each, and so on, the lines ascending.
    InTurn,
}

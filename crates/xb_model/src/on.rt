// Items that stand on a line.
ghost use Rattle.std.specs.Prelude.{◌≡◌, ℕ};

use crate::line::LineNo;
use crate::row::Row;

/// Something on a line.
#[derive(Clone, Copy, Debug, PartialEq, Eq, Default)]
pub struct On<T> {
    /// The line.
    pub line: LineNo,
    /// What is on it.
    pub what: T,
}

/// What stands on a line.
pub trait OnLine {
    ghost line_of: { Self → ℕ };

    /// The line on which it stands.
    fn line(&self) -> LineNo
        ensures { result ≡ line_of self.now };
}

impl<T> OnLine for On<T> {
    ghost line_of = { λ item. item.line };

    fn line(&self) -> LineNo {
        self.line
    }
}

impl OnLine for Row {
    ghost line_of = { λ row. row.line };

    fn line(&self) -> LineNo {
        Row::line(self)
    }
}

// What the rows so far leave of a line.
ghost use Rattle.std.specs.Prelude.{◌≡◌, not};
ghost use Rattle.xb_closes.specs.LineUses.{is_closed, is_open_use, next_use};

use xb_model::Contact;

/// What the rows so far leave of a line.
#[derive(Clone, Copy, Debug, PartialEq, Eq)]
pub enum LineUse {
    /// There was no row.
    NoRows,
    /// There were rows, and no close.
    Open,
    /// There was a close.
    Closed,
}

impl LineUse {
    /// Whether a row of the line is still heard.
    pub(crate) fn is_heard(self) -> bool
        ensures { result ≡ not (is_closed self) }
    {
        match self {
            LineUse::NoRows | LineUse::Open => true,
            LineUse::Closed => false,
        }
    }

    /// Whether the line lacks a close.
    pub(crate) fn is_open(self) -> bool
        ensures { result ≡ is_open_use self }
    {
        match self {
            LineUse::Open => true,
            LineUse::NoRows | LineUse::Closed => false,
        }
    }

    /// The use of the line after one more row.
    pub(crate) fn after(self, contact: Contact) -> LineUse
        ensures { result ≡ next_use self contact }
    {
        match (self, contact) {
            (LineUse::Closed, _) | (_, Contact::Close) => LineUse::Closed,
            (_, Contact::Make | Contact::Brk) => LineUse::Open,
        }
    }
}

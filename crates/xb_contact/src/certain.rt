// What a hold makes certain of a line.
ghost use Rattle.std.specs.Prelude.{◌≡◌};
ghost use Rattle.xb_contact.specs.Seizing.{certain_with, nothing};

use crate::hold::Hold;
use crate::joint::left_of;
use crate::level::Level;

/// What is certain of a line with a hold, in order: whatever comes later, it stands. Neighbours may have one level.
#[derive(Clone, Copy, Debug, PartialEq, Eq)]
pub struct Certain {
    /// The break that was withheld.
    pub first: Option<Hold>,
    /// The make after it that was withheld.
    pub second: Option<Hold>,
    /// The hold itself.
    pub third: Option<Hold>,
}

// Nothing is certain.
pub(crate) fn nothing() -> Certain
    ensures { result ≡ nothing }
{
    Certain {
        first: None,
        second: None,
        third: None,
    }
}

// What was withheld is certain, a break and a make of so many ticks, and then a hold.
pub(crate) fn certain_with(rest: u64, make: u64, hold: Hold) -> Certain
    ensures { result ≡ certain_with rest make hold }
{
    Certain {
        first: left_of(Hold {
            level: Level::Open,
            ticks: rest,
        }),
        second: left_of(Hold {
            level: Level::Closed,
            ticks: make,
        }),
        third: Some(hold),
    }
}

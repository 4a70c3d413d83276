// Why a text is no page.
ghost use Rattle.std.specs.Prelude.{◌≡◌};

use std::alloc::AllocError;
use std::fmt;
use thiserror::Error;

/// Why a text is no page: the first fault, with its text line, counted from 1.
#[derive(Clone, Copy, Debug, PartialEq, Eq, Error)]
pub enum PageFault {
    /// The first field is no line of four digits.
    Line(usize),
    /// The line is before that of the entry above, or before the first that the page may have.
    Early(usize),
    /// The second field does not count the entries of the line, from 1.
    Number(usize),
    /// The third field is neither KEYED nor REFUSED.
    Kind(usize),
    /// A field after KEYED is neither a trunk group of four digits nor a key with its own two frequencies,
    /// the lower first.
    Key(usize),
    /// After REFUSED stand no reason and count.
    Refusal(usize),
    /// The totals are not those of the entries.
    Totals(usize),
    /// The page ends without totals, or these without an LF.
    NoTotals(usize),
    /// Text stands after the totals.
    GoesOn(usize),
    /// Memory ran out.
    NoMemory,
}

impl fmt::Display for PageFault {
    ghost use Rattle.std.specs.Prelude.{Some};
    ghost use Rattle.xb_page.specs.FaultTexts.{page_fault_text};

    ghost output = { λ fault. Some (page_fault_text fault) };

    fn fmt<W: fmt::Write>(&self, f: &mut fmt::Formatter<W>) -> fmt::Result {
        match self {
            PageFault::Line(number) => write!(f, "text line {number} has a wrong line"),
            PageFault::Early(number) => write!(f, "text line {number} has a wrong line"),
            PageFault::Number(number) => write!(f, "text line {number} has a wrong entry number"),
            PageFault::Kind(number) => write!(f, "text line {number} is neither KEYED nor REFUSED"),
            PageFault::Key(number) => write!(
                f,
                "text line {number} has a wrong trunk group or key"
            ),
            PageFault::Refusal(number) => write!(f, "text line {number} has a wrong refusal"),
            PageFault::Totals(number) => write!(f, "text line {number} has wrong totals"),
            PageFault::NoTotals(number) => write!(
                f,
                "the page ends at text line {number} without its totals"
            ),
            PageFault::GoesOn(number) => write!(
                f,
                "text stands after the totals of text line {number}"
            ),
            PageFault::NoMemory => f.write_str("out of memory"),
        }
    }
}

impl From<AllocError> for PageFault {
    ghost use Rattle.xb_page.specs.declared.fault.PageFault.TheVariants.{NoMemory};

    ghost from_gives = { λ _ e. e ≡ NoMemory };

    fn from(_error: AllocError) -> PageFault {
        PageFault::NoMemory
    }
}

// What is said of a digit, as values.
ghost use Rattle.std.specs.Prelude.{◌≡◌};
ghost use Rattle.xb_heard.specs.Digits.{digit_in};
ghost use Rattle.xb_heard.specs.DigitRows.{name_of, remark_of, row_of};

use crate::digit::HeardDigit;
use crate::fault::Spoiler;
use crate::figures::{Extent, extent_of, percent_of, speed_of, times_of};
use xb_model::{Contact, MOST_PULSES};

/// What is said of a digit beside its figures.
#[derive(Clone, Copy, Debug, PartialEq, Eq)]
pub enum Remark {
    /// Nothing: the register took a good digit.
    Good,
    /// The register took a digit that this spoils.
    Spoiled(Spoiler),
    /// The register did not take it; what spoils it, if anything does.
    Ignored(Option<Spoiler>),
}

/// A digit and its figures, as a row of a table has them.
#[derive(Clone, Copy, Debug, PartialEq, Eq)]
pub struct DigitRow {
    /// The digit, 0 to 9; `None` where it is spoiled.
    pub name: Option<u64>,
    /// How many pulses it has.
    pub pulses: u64,
    /// Pulses a second, in tenths; `None` of a single pulse.
    pub speed: Option<u128>,
    /// How much of the time is break, in tenths of a percent; `None` of a single pulse.
    pub share: Option<u128>,
    /// Its shortest and its longest break, in ms.
    pub breaks: Option<Extent>,
    /// Its shortest and its longest make between two pulses, in ms.
    pub makes: Option<Extent>,
    /// How long the make that ended it is, in ms.
    pub pause: u64,
    /// What is said of it.
    pub remark: Remark,
}

// The digit of so many pulses; `None` where it is spoiled.
fn name_of(pulses: u64, spoiler: Option<Spoiler>) -> Option<u64>
    ensures { result ≡ name_of pulses spoiler }
{
    match spoiler {
        None => Some(pulses % u64::from(MOST_PULSES)),
        Some(_) => None,
    }
}

// What is said of a digit that the register took, or did not.
fn remark_of(taken: bool, spoiler: Option<Spoiler>) -> Remark
    ensures { result ≡ remark_of taken spoiler }
{
    match spoiler {
        _ if !taken => Remark::Ignored(spoiler),
        None => Remark::Good,
        Some(spoiler) => Remark::Spoiled(spoiler),
    }
}

/// The row of a digit that the register took, or did not.
pub fn row_of(digit: &HeardDigit, taken: bool) -> DigitRow
    ensures { result ≡ row_of taken (digit_in digit.now) }
{
    let pulses = times_of(digit.pulses).breaks;
    DigitRow {
        name: name_of(pulses, digit.spoiler),
        pulses,
        speed: speed_of(digit.pulses),
        share: percent_of(digit.pulses),
        breaks: extent_of(digit.pulses, Contact::Brk),
        makes: extent_of(digit.pulses, Contact::Make),
        pause: digit.pause.ms,
        remark: remark_of(taken, digit.spoiler),
    }
}

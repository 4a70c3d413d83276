// What may be wrong with the page of a part.
use std::fmt;
use thiserror::Error;

/// What is wrong with the page of a part. A number is that of the text line, from 1.
#[derive(Clone, Copy, Debug, PartialEq, Eq, Error)]
pub enum Damage {
    /// The page ends before a line of totals has ended.
    NoTotals,
    /// The totals are not the numbers of the page's entries.
    WrongTotals,
    /// Something follows the totals.
    GoesOn,
    /// A text line is neither an entry nor the totals.
    NoEntry(usize),
    /// What a text line has after KEYED is not a trunk group and its keys, each with its own two frequencies.
    WrongKey(usize),
    /// What a text line has after REFUSED is not a reason and its count.
    WrongRefusal(usize),
    /// An entry is not the next one of its line, or its line comes after a later one.
    OutOfOrder(usize),
    /// The first entry is of a line that an earlier part has had.
    Overlaps,
}

impl fmt::Display for Damage {
    ghost use Rattle.std.specs.Prelude.{Some};
    ghost use Rattle.xb_parts.specs.FaultTexts.{damage_text};

    ghost output = { λ fault. Some (damage_text fault) };

    fn fmt<W: fmt::Write>(&self, f: &mut fmt::Formatter<W>) -> fmt::Result {
        match self {
            Damage::NoTotals => f.write_str("the page ends without its totals"),
            Damage::WrongTotals => f.write_str("the totals are not those of the entries"),
            Damage::GoesOn => f.write_str("the page goes on after its totals"),
            Damage::NoEntry(number) => write!(f, "line {number} is no entry"),
            Damage::WrongKey(number) => write!(f, "line {number} has a wrong trunk group or key"),
            Damage::WrongRefusal(number) => write!(f, "line {number} has a wrong refusal"),
            Damage::OutOfOrder(number) => write!(f, "line {number} is out of its order"),
            Damage::Overlaps => f.write_str("the first line belongs to an earlier part"),
        }
    }
}

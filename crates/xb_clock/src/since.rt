// The time of day that a word says.
ghost use Rattle.std.specs.Prelude.{option_map};
ghost use Rattle.xb_clock.specs.Since.{ReadsSince};

use jiff_core::Timestamp;
use jiff_fmt::temporal::parse_timestamp;

/// The time of day that ms are counted from.
#[derive(Clone, Copy, Debug, PartialEq, Eq)]
pub enum Since {
    /// None is asked for.
    NotGiven,
    /// This one is.
    Time(Timestamp),
    /// The word that was given is none.
    NoTime,
}

/// The time of day that a word says, as 2026-11-25T20:00:00Z or with the difference from UTC in place of the Z.
pub fn since_of(word: Option<&str>) -> Since
    ensures { ReadsSince (option_map (λ text. text.now) word.entry) result }
{
    match word {
        None => Since::NotGiven,
        Some(word) => match parse_timestamp(word.as_bytes()) {
            Ok(time) => Since::Time(time),
            Err(_) => Since::NoTime,
        },
    }
}

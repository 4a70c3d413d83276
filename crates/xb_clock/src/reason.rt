// Why a word is no time of day.
use jiff_core::Error;
use jiff_core::error::{Bound, Syntax};
use jiff_fmt::temporal::parse_timestamp;

// What stands after the date of a time of day.
const AFTER_DATE: &str =
    "a time has an hour, a minute and an offset from UTC after its date, as 2026-11-25T20:00:00Z";

// Why a text that gives such an error is no time of day.
fn reason_of(error: Error) -> &'static str {
    match error {
        Error::Parse(Syntax::Year | Syntax::YearZero | Syntax::Separator)
        | Error::Range(Bound::Year) => "a time begins with its date, as 2026-11-25T20:00:00Z",
        Error::Parse(Syntax::Month) | Error::Range(Bound::Month) => {
            "a time has a month from 01 to 12, as 2026-11-25T20:00:00Z"
        }
        Error::Parse(Syntax::Day) | Error::Range(Bound::Day) | Error::InvalidDay => {
            "a time has a day that its month has, as 2026-11-25T20:00:00Z"
        }
        Error::Parse(Syntax::Hour) | Error::Range(Bound::Hour) => {
            "a time has an hour from 00 to 23, as 2026-11-25T20:00:00Z"
        }
        Error::Parse(Syntax::Minute) | Error::Range(Bound::Minute) => {
            "a time has a minute from 00 to 59, as 2026-11-25T20:00:00Z"
        }
        Error::Parse(Syntax::Second | Syntax::Fraction)
        | Error::Range(Bound::Second | Bound::LeapSecond) => {
            "a time has a second from 00 to 59, and one to nine digits after its point"
        }
        Error::Range(Bound::UnixEpochSeconds) => {
            "a time is from -009999-01-02T01:59:59Z to 9999-12-30T22:00:00.999999999Z"
        }
        _ => AFTER_DATE,
    }
}

/// Why a word is no time of day, in plain words.
pub fn no_time(word: &str) -> &'static str {
    match parse_timestamp(word.as_bytes()) {
        Ok(_) => AFTER_DATE,
        Err(error) => reason_of(error),
    }
}

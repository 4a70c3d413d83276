// The times of day so many ms after one that is given.
ghost use Rattle.std.specs.Prelude.{◌≡◌, ◌*◌, pos, IfNone, IfSome};
ghost use Rattle.xb_clock.specs.Clocks.{AreTimes, IsLateAfter, IsLateAt, IsLateSince, IsTimeText, TellsTime, text_in};

use arrayvec::ArrayString;
use jiff_core::Timestamp;
use jiff_fmt::temporal::DateTimePrinter;

/// The last instant that there is, as faults name it.
pub const LAST_TIME: &str = "9999-12-30T22:00:00.999999999Z";

/// The text of a time, as 2026-11-25T20:00:00.5Z.
pub type TimeText = ArrayString<33>;

/// The texts of the times of an entry, where they are asked for.
#[derive(Clone, Copy)]
pub struct Times {
    /// When it began.
    pub from: Option<TimeText>,
    /// When it is complete.
    pub at: Option<TimeText>,
}

// The ns of ms.
fn nanos(ms: u64) -> i128
    ensures { result ≡ pos (ms * 1_000_000) }
{
    i128::from(ms) * 1_000_000
}

// The time so many ms after another, if there is one.
fn time_after(since: Timestamp, ms: u64) -> Option<TimeText>
    ensures told { IfSome result (λ text. IsTimeText since ms (text.bytes)) }
    ensures late { IfNone result (IsLateAfter since ms) }
{
    match since.checked_add_nanos(nanos(ms)) {
        Ok(time) => Some(DateTimePrinter::new().timestamp_text(time)),
        Err(_) => None,
    }
}

/// The time so many ms after one of day, if one is given; nothing where it is past the last instant that there is.
pub fn time_of(since: Option<Timestamp>, ms: u64) -> Option<Option<TimeText>>
    ensures told { IfSome result (λ time. TellsTime since ms (text_in time)) }
    ensures late { IfNone result (IsLateAt since ms) }
{
    match since {
        None => Some(None),
        Some(since) => Some(Some(time_after(since, ms)?)),
    }
}

/// The times of an entry that began at so many ms and is complete at so many, counted from one of day, if one is given;
/// nothing where one of them is past the last instant that there is.
pub fn times_of(since: Option<Timestamp>, began: u64, at: u64) -> Option<Times>
    ensures told { IfSome result (λ times. AreTimes since began at times) }
    ensures late { IfNone result (IsLateSince since began at) }
{
    match since {
        None => Some(Times {
            from: None,
            at: None,
        }),
        Some(since) => {
            let from = time_after(since, began)?;
            let at = time_after(since, at)?;
            Some(Times {
                from: Some(from),
                at: Some(at),
            })
        }
    }
}

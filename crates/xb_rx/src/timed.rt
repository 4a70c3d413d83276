// The objects of keys and of entries, with their times of day where these are told.
ghost use Rattle.std.specs.Prelude.{◌≡◌, IfErr, IfOk, string_bytes};
ghost use Rattle.xb_clock.specs.Clocks.{Clock, IsClockSince, IsLateAt, TellsTime, text_in};
ghost use Rattle.xb_rx.specs.Faults.{IsLateFault};
ghost use Rattle.xb_rx.specs.Timed.{entry_between, entry_line, key_at, key_line, object_text, timing_by};

use crate::page::PageFault;
use jiff_core::Timestamp;
use std::alloc::{AllocError, Global};
use xb_clock::{TimeText, time_of, with_time};
use xb_json::line_of;
use xb_measured::{Figures, NamedKey, began_ms, ended_ms, entry_object, object_of};

// Why what is heard is not written.
#[derive(Clone, Copy, Debug, PartialEq, Eq)]
pub(crate) enum ReportFault {
    // A fault that a page has too.
    Page(PageFault),
    // The time of day so many ms after the first sample is past the last that there is.
    Late(u64),
}

impl From<PageFault> for ReportFault {
    ghost use Rattle.std.specs.Prelude.{◌≡◌};
    ghost use Rattle.xb_rx.specs.declared.timed.ReportFault.TheVariants.{Page};

    ghost from_gives = { λ fault e. e ≡ Page fault };

    fn from(fault: PageFault) -> ReportFault {
        ReportFault::Page(fault)
    }
}

impl From<AllocError> for ReportFault {
    ghost use Rattle.std.specs.Prelude.{◌≡◌};
    ghost use Rattle.xb_rx.specs.declared.page.PageFault.TheVariants.{NoMemory};
    ghost use Rattle.xb_rx.specs.declared.timed.ReportFault.TheVariants.{Page};

    ghost from_gives = { λ _ e. e ≡ Page NoMemory };

    fn from(_error: AllocError) -> ReportFault {
        ReportFault::Page(PageFault::NoMemory)
    }
}

// The time of day so many ms after the first sample, if one is told.
fn told_time(since: Option<Timestamp>, ms: u64) -> Result<Option<TimeText>, ReportFault>
    ensures told { IfOk result (λ time. TellsTime since ms (text_in time)) }
    ensures late { IfErr result (λ f. (f ≡ ReportFault.Late ms) × IsLateAt since ms) }
{
    match time_of(since, ms) {
        Some(time) => Ok(time),
        None => Err(ReportFault::Late(ms)),
    }
}

// The object of a key with this time of day, if it is one, as a line.
fn line_of_key(
    alloc: Global,
    figures: &Figures,
    at: &Option<TimeText>,
) -> Result<String, AllocError>
    ensures { IfOk result (λ line. string_bytes line ≡ object_text (key_at (text_in at.now) figures.now)) }
{
    let object = object_of(alloc, figures)?;
    let object = with_time(alloc, object, "at", at)?;
    line_of(alloc, &object)
}

// The object of a keying with these times of day, if they are some, as a line.
fn line_of_entry(
    alloc: Global,
    number: usize,
    keys: &[NamedKey],
    from: &Option<TimeText>,
    to: &Option<TimeText>,
) -> Result<String, AllocError>
    ensures { IfOk result (λ line. string_bytes line
        ≡ object_text (entry_between (text_in from.now) (text_in to.now) number keys.now)) }
{
    let object = entry_object(alloc, number, keys)?;
    let object = with_time(alloc, object, "from", from)?;
    let object = with_time(alloc, object, "to", to)?;
    line_of(alloc, &object)
}

/// The object of a key as a line, with its time of day where that is told.
pub(crate) fn key_line(
    alloc: Global,
    since: Option<Timestamp>,
    figures: &Figures,
) -> Result<String, ReportFault>
    ensures line { (clock : Clock) → IsClockSince since clock →
        IfOk result (λ line. string_bytes line ≡ key_line (timing_by since clock) figures.now) }
    ensures late { IfErr result (IsLateFault since) }
{
    let at = told_time(since, figures.start_ms)?;
    let line = line_of_key(alloc, figures, &at)?;
    Ok(line)
}

/// The object of a keying as a line: the entry of this number, with its times of day where these are told.
pub(crate) fn entry_line(
    alloc: Global,
    since: Option<Timestamp>,
    number: usize,
    keys: &[NamedKey],
) -> Result<String, ReportFault>
    ensures line { (clock : Clock) → IsClockSince since clock →
        IfOk result (λ line. string_bytes line ≡ entry_line (timing_by since clock) number keys.now) }
    ensures late { IfErr result (IsLateFault since) }
{
    let from = told_time(since, began_ms(keys))?;
    let to = told_time(since, ended_ms(keys))?;
    let line = line_of_entry(alloc, number, keys, &from, &to)?;
    Ok(line)
}

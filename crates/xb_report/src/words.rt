// The words of a report.
ghost use Rattle.std.specs.Prelude.{◌≡◌, ◌++◌, OnOk, string_bytes};
ghost use Rattle.xb_report.specs.Cells.{place_text};
ghost use Rattle.xb_report.specs.ReportTexts.{spoiler_text, spoiler_with};
ghost use Rattle.xb_report.specs.Words.{digits_text, fault_name, fault_text, fault_with, is_taken, is_timed_out};
ghost use Rattle.xb_report.specs.Words.{limit_of, outcome_text};

use std::alloc::AllocError;
use xb_heard::{PlacedRun, PulseFault, Spoiler};
use xb_model::{Dialled, Digit, Limits, MOST_PULSES, Reason};

// Puts digits after the text, one after the other.
fn push_digits(out: &mut String, digits: &[Digit]) -> Result<(), AllocError>
    ensures { OnOk result (string_bytes out.new ≡ string_bytes out.old ++ digits_text digits.now) }
{
    for digit in digits {
        let digit = digit.get();
        write!(out, "{digit}")?;
    }
    Ok(())
}

/// Puts what came of an attempt after the text: its number, or why it was refused, in the words of the
/// page. `Err` says that memory ran out.
pub fn push_outcome(out: &mut String, outcome: &Dialled) -> Result<(), AllocError>
    ensures { OnOk result (string_bytes out.new ≡ string_bytes out.old ++ outcome_text outcome.now) }
{
    match outcome {
        Dialled::Number(number) => {
            out.push_str("NUMBER ")?;
            push_digits(out, number.digits())
        }
        Dialled::Refused(reason, heard) => {
            let word = reason.word();
            write!(out, "REFUSED {word} {heard}")
        }
    }
}

// Puts what is wrong with a run of so many ms after the text, and the limit, with these signs for less and for
// more.
pub(crate) fn push_fault_with(
    out: &mut String,
    less: &str,
    more: &str,
    limits: Limits,
    fault: PulseFault,
    ms: u64,
) -> Result<(), AllocError>
    ensures { OnOk result (string_bytes out.new
        ≡ string_bytes out.old ++ fault_with less.now more.now limits fault ms) }
{
    match fault {
        PulseFault::ShortBreak => {
            let least = limits.pulse_min;
            write!(out, "break {ms} ms {less} {least}")
        }
        PulseFault::LongBreak => {
            let most = limits.pulse_max;
            write!(out, "break {ms} ms {more} {most}")
        }
        PulseFault::ShortMake => {
            let least = limits.make_min;
            write!(out, "make {ms} ms {less} {least}")
        }
        PulseFault::TooManyPulses => out.push_str("pulse 11"),
    }
}

/// Puts what is wrong with a run of so many ms after the text, and the limit: `break 131 ms > 119`. `Err` says
/// that memory ran out.
pub fn push_fault(
    out: &mut String,
    limits: Limits,
    fault: PulseFault,
    ms: u64,
) -> Result<(), AllocError>
    ensures { OnOk result (string_bytes out.new ≡ string_bytes out.old ++ fault_text limits fault ms) }
{
    push_fault_with(out, "<", ">", limits, fault, ms)
}

/// The name of a fault, as programs read it: `SHORT_BREAK`, `LONG_BREAK`, `SHORT_MAKE` or `TOO_MANY_PULSES`.
pub fn fault_name(fault: PulseFault) -> &'static str
    ensures { result.now ≡ fault_name fault }
{
    match fault {
        PulseFault::ShortBreak => "SHORT_BREAK",
        PulseFault::LongBreak => "LONG_BREAK",
        PulseFault::ShortMake => "SHORT_MAKE",
        PulseFault::TooManyPulses => "TOO_MANY_PULSES",
    }
}

/// The limit that a fault breaks: in ms, or how many pulses a digit has at most.
pub fn limit_of(limits: Limits, fault: PulseFault) -> u32
    ensures { result ≡ limit_of limits fault }
{
    match fault {
        PulseFault::ShortBreak => limits.pulse_min,
        PulseFault::LongBreak => limits.pulse_max,
        PulseFault::ShortMake => limits.make_min,
        PulseFault::TooManyPulses => u32::from(MOST_PULSES),
    }
}

/// Puts where a run begins after the text: the time from the line's first record, and the number of its
/// record among those of all lines. `Err` says that memory ran out.
pub fn push_place(out: &mut String, run: &PlacedRun) -> Result<(), AllocError>
    ensures { OnOk result (string_bytes out.new ≡ string_bytes out.old ++ place_text run.now) }
{
    let seconds = run.start / 1000;
    let ms = run.start % 1000;
    let record = run.first_record;
    write!(out, "{seconds}.{ms:03} s, record {record}")
}

// Puts what spoils a digit after the text, and where, with these signs for less and for more.
pub(crate) fn push_spoiler_with(
    out: &mut String,
    less: &str,
    more: &str,
    limits: Limits,
    spoiler: Spoiler,
) -> Result<(), AllocError>
    ensures { OnOk result (string_bytes out.new
        ≡ string_bytes out.old ++ spoiler_with less.now more.now limits spoiler) }
{
    let Spoiler { fault, run } = spoiler;
    push_fault_with(out, less, more, limits, fault, run.ms)?;
    out.push_str(" at ")?;
    push_place(out, &run)
}

// Puts what spoils a digit after the text, and where.
pub(crate) fn push_spoiler(
    out: &mut String,
    limits: Limits,
    spoiler: Spoiler,
) -> Result<(), AllocError>
    ensures { OnOk result (string_bytes out.new ≡ string_bytes out.old ++ spoiler_text limits spoiler) }
{
    push_spoiler_with(out, "<", ">", limits, spoiler)
}

/// Whether the register takes digit `index` of an attempt, from 0.
pub fn is_taken(outcome: &Dialled, index: usize) -> bool
    ensures { result ≡ is_taken outcome.now index }
{
    match outcome {
        Dialled::Number(number) => index < number.digits().len(),
        Dialled::Refused(_, heard) => index <= usize::from(*heard),
    }
}

/// Whether the attempt was refused because it timed out.
pub fn is_timed_out(outcome: &Dialled) -> bool
    ensures { result ≡ is_timed_out outcome.now }
{
    match outcome {
        Dialled::Refused(Reason::TimedOut, _) => true,
        Dialled::Refused(_, _) | Dialled::Number(_) => false,
    }
}

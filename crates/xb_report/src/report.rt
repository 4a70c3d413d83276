// The text of a report.
ghost use Rattle.std.specs.Prelude.{◌≡◌, ◌++◌, OnOk, map, string_bytes};
ghost use Rattle.xb_heard.specs.Attempts.{attempt_in};
ghost use Rattle.xb_report.specs.ReportTexts.{attempts_from, limits_text};

use crate::attempt::push_attempt;
use std::alloc::{AllocError, Global};
use xb_heard::HeardAttempt;
use xb_model::{Limits, LineNo};

/// Puts the first line of a report after the text: the limits. `Err` says that memory ran out.
pub fn push_limits(out: &mut String, limits: Limits) -> Result<(), AllocError>
    ensures { OnOk result (string_bytes out.new ≡ string_bytes out.old ++ limits_text limits) }
{
    let Limits {
        pulse_min,
        pulse_max,
        make_min,
        pause,
        release,
        timeout,
    } = limits;
    write!(
        out,
        "limits in ms: break {pulse_min} to {pulse_max}, make from {make_min}, "
    )?;
    write!(
        out,
        "pause from {pause}, release from {release}, time-out from {timeout}\n"
    )
}

/// Puts the attempts of a line after the text, each with what came of it: a heading, a table with a line for
/// each digit, and how it ended. `Err` says that memory ran out.
pub fn push_attempts(
    alloc: Global,
    out: &mut String,
    limits: Limits,
    line: LineNo,
    attempts: &[HeardAttempt],
) -> Result<(), AllocError>
    ensures { OnOk result (string_bytes out.new ≡ string_bytes out.old
        ++ attempts_from limits line 1 (map attempt_in attempts.now)) }
{
    for (index, attempt) in attempts.iter().enumerate() {
        push_attempt(alloc, out, limits, line, index + 1, attempt)?;
    }
    Ok(())
}

// The rows of an attempt.
ghost use Rattle.std.specs.Prelude.{◌≡◌, ◌++◌, OnOk, map, string_bytes};
ghost use Rattle.xb_heard.specs.Attempts.{attempt_in};
ghost use Rattle.xb_report.specs.Rows.{attempt_rows, end_row, heading_row, rows_from};

use crate::attempt::{push_heading, push_release, push_timeout, push_unfinished};
use crate::html_digit::push_digits;
use std::alloc::{AllocError, Global};
use xb_heard::{HeardAttempt, PlacedRun};
use xb_model::{Dialled, Limits, LineNo};

// Puts the first row of attempt `number` of a line after the text.
fn push_first(
    out: &mut String,
    line: LineNo,
    number: usize,
    runs: &[PlacedRun],
    outcome: &Dialled,
) -> Result<(), AllocError>
    ensures { OnOk result (string_bytes out.new
        ≡ string_bytes out.old ++ heading_row line number runs.now outcome.now) }
{
    out.push_str("<tr><th colspan=\"8\">")?;
    push_heading(out, line, number, runs, outcome)?;
    out.push_str("</th></tr>\n")
}

// Puts the last row of an attempt after the text.
fn push_end(out: &mut String, attempt: &HeardAttempt) -> Result<(), AllocError>
    ensures { OnOk result (string_bytes out.new
        ≡ string_bytes out.old ++ end_row (attempt_in attempt.now)) }
{
    out.push_str("<tr><td colspan=\"8\">")?;
    push_unfinished(out, attempt.unfinished)?;
    push_timeout(out, &attempt.outcome, attempt.timeout)?;
    push_release(out, attempt.release)?;
    out.push_str("</td></tr>\n")
}

// Puts the rows of attempt `number` of a line after the text.
fn push_attempt(
    alloc: Global,
    out: &mut String,
    limits: Limits,
    line: LineNo,
    number: usize,
    attempt: &HeardAttempt,
) -> Result<(), AllocError>
    ensures { OnOk result (string_bytes out.new
        ≡ string_bytes out.old ++ attempt_rows limits line number (attempt_in attempt.now)) }
{
    push_first(out, line, number, attempt.runs, &attempt.outcome)?;
    push_digits(alloc, out, limits, &attempt.outcome, &attempt.digits)?;
    push_end(out, attempt)
}

// Puts the rows of the attempts of a line after the text.
pub(crate) fn push_attempts(
    alloc: Global,
    out: &mut String,
    limits: Limits,
    line: LineNo,
    attempts: &[HeardAttempt],
) -> Result<(), AllocError>
    ensures { OnOk result (string_bytes out.new ≡ string_bytes out.old
        ++ rows_from limits line 1 (map attempt_in attempts.now)) }
{
    for (index, attempt) in attempts.iter().enumerate() {
        push_attempt(alloc, out, limits, line, index + 1, attempt)?;
    }
    Ok(())
}

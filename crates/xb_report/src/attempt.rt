// The text of an attempt.
ghost use Rattle.std.specs.Prelude.{◌≡◌, ◌++◌, OnOk, string_bytes};
ghost use Rattle.xb_model.specs.Page.{four_digits};
ghost use Rattle.xb_heard.specs.Attempts.{attempt_in};
ghost use Rattle.xb_report.specs.ReportTexts.{attempt_text, front_text, heading_text, pulses_text, release_text, timeout_text, unfinished_text};

use crate::digit::push_table;
use crate::words::{is_timed_out, push_outcome, push_place};
use std::alloc::{AllocError, Global};
use xb_heard::{HeardAttempt, PlacedRun, times_of};
use xb_model::{Dialled, Limits, LineNo};

// Puts where an attempt begins after the text.
fn push_front(out: &mut String, runs: &[PlacedRun]) -> Result<(), AllocError>
    ensures { OnOk result (string_bytes out.new ≡ string_bytes out.old ++ front_text runs.now) }
{
    if let Some(run) = runs.first() {
        out.push_str(" from ")?;
        push_place(out, run)?;
    }
    Ok(())
}

/// Puts a line's number after the text, in four digits. `Err` says that memory ran out.
pub fn push_line(out: &mut String, line: LineNo) -> Result<(), AllocError>
    ensures { OnOk result (string_bytes out.new ≡ string_bytes out.old ++ four_digits line) }
{
    let number = line.get();
    write!(out, "{number:04}")
}

/// Puts the first line of attempt `number` of a line after the text: where it begins, and what came of it.
/// `Err` says that memory ran out.
pub(crate) fn push_heading(
    out: &mut String,
    line: LineNo,
    number: usize,
    runs: &[PlacedRun],
    outcome: &Dialled,
) -> Result<(), AllocError>
    ensures { OnOk result (string_bytes out.new
        ≡ string_bytes out.old ++ heading_text line number runs.now outcome.now) }
{
    out.push_str("\nline ")?;
    push_line(out, line)?;
    write!(out, ", attempt {number}")?;
    push_front(out, runs)?;
    out.push_str(": ")?;
    push_outcome(out, outcome)?;
    out.push_str("\n")
}

// Puts so many pulses that no pause ended after the text, from a run on.
fn push_pulses(out: &mut String, count: u64, run: &PlacedRun) -> Result<(), AllocError>
    ensures { OnOk result (string_bytes out.new ≡ string_bytes out.old ++ pulses_text count run.now) }
{
    out.push_str("  pulses that no pause ended: ")?;
    write!(out, "{count}, from ")?;
    push_place(out, run)?;
    out.push_str("\n")
}

/// Puts the pulses that no pause ended after the text, if there are any. `Err` says that memory ran out.
pub(crate) fn push_unfinished(out: &mut String, pulses: &[PlacedRun]) -> Result<(), AllocError>
    ensures { OnOk result (string_bytes out.new ≡ string_bytes out.old ++ unfinished_text pulses.now) }
{
    if let Some(run) = pulses.first() {
        push_pulses(out, times_of(pulses).breaks, run)?;
    }
    Ok(())
}

/// Puts the make after which nothing is heard after the text, if there is one. `Err` says that memory ran
/// out.
pub(crate) fn push_timeout(
    out: &mut String,
    outcome: &Dialled,
    timeout: Option<PlacedRun>,
) -> Result<(), AllocError>
    ensures { OnOk result (string_bytes out.new ≡ string_bytes out.old ++ timeout_text outcome.now timeout) }
{
    if let Some(run) = timeout {
        if is_timed_out(outcome) {
            out.push_str("  timed out by a make of ")?;
        } else {
            out.push_str("  nothing more is heard after a make of ")?;
        }
        let ms = run.ms;
        write!(out, "{ms} ms at ")?;
        push_place(out, &run)?;
        out.push_str("\n")?;
    }
    Ok(())
}

/// Puts how an attempt ended after the text. `Err` says that memory ran out.
pub(crate) fn push_release(out: &mut String, release: Option<PlacedRun>) -> Result<(), AllocError>
    ensures { OnOk result (string_bytes out.new ≡ string_bytes out.old ++ release_text release) }
{
    match release {
        Some(run) => {
            out.push_str("  hung up for ")?;
            let ms = run.ms;
            write!(out, "{ms} ms at ")?;
            push_place(out, &run)?;
            out.push_str("\n")
        }
        None => out.push_str("  the record ends\n"),
    }
}

// Puts attempt `number` of a line after the text, and what came of it.
pub(crate) fn push_attempt(
    alloc: Global,
    out: &mut String,
    limits: Limits,
    line: LineNo,
    number: usize,
    attempt: &HeardAttempt,
) -> Result<(), AllocError>
    ensures { OnOk result (string_bytes out.new
        ≡ string_bytes out.old ++ attempt_text limits line number (attempt_in attempt.now)) }
{
    push_heading(out, line, number, attempt.runs, &attempt.outcome)?;
    push_table(alloc, out, limits, &attempt.outcome, &attempt.digits)?;
    push_unfinished(out, attempt.unfinished)?;
    push_timeout(out, &attempt.outcome, attempt.timeout)?;
    push_release(out, attempt.release)
}

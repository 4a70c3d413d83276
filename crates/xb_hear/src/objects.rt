// The JSON objects of attempts.
ghost use Rattle.std.specs.Prelude.{◌≡◌, ◌++◌, IfOk, OnOk, codes, map, string_bytes};
ghost use Rattle.serde_json.specs.View.{view};
ghost use Rattle.serde_json.specs.Written.{compact_text};
ghost use Rattle.xb_heard.specs.Attempts.{attempt_in};
ghost use Rattle.xb_json.specs.Objects.{data_of};
ghost use Rattle.xb_hear.specs.Objects.{attempt_object, attempt_of_parts, end_object, end_of_parts, heard_in, number_in};
ghost use Rattle.xb_hear.specs.Objects.{objects_from, outcome_name, reason_in};

use crate::digit_objects::{digits_array, first_run, run_or_null};
use serde_json::Value;
use std::alloc::{AllocError, Global};
use xb_heard::{HeardAttempt, times_of};
use xb_json::{Member, line_of, object_of};
use xb_model::{Dialled, Limits, LineNo};

// The name of an outcome.
fn outcome_name(outcome: &Dialled) -> &'static str
    ensures { result.now ≡ outcome_name outcome.now }
{
    match outcome {
        Dialled::Number(_) => "NUMBER",
        Dialled::Refused(_, _) => "REFUSED",
    }
}

// The number of an outcome, or null.
fn number_in(outcome: &Dialled) -> Member<'_>
    ensures { data_of result ≡ number_in outcome.now }
{
    match outcome {
        Dialled::Number(number) => Member::Digits(number.digits()),
        Dialled::Refused(_, _) => Member::Null,
    }
}

// Why an outcome is no number, or null.
fn reason_in(outcome: &Dialled) -> Member<'static>
    ensures { data_of result ≡ reason_in outcome.now }
{
    match outcome {
        Dialled::Number(_) => Member::Null,
        Dialled::Refused(reason, _) => Member::Word(reason.word()),
    }
}

// How many good digits were heard.
fn heard_in(outcome: &Dialled) -> usize
    ensures { result ≡ heard_in outcome.now }
{
    match outcome {
        Dialled::Number(number) => number.digits().len(),
        Dialled::Refused(_, heard) => usize::from(*heard),
    }
}

// How an attempt ended, by runs with their places, or null.
#[derive(Drop)]
struct EndParts {
    released: Value,
    timeout: Value,
    unfinished: Value,
}

// How an attempt ended, where so many pulses had no pause.
fn end_of_parts(alloc: Global, pulses: u64, parts: &EndParts) -> Result<Value, AllocError>
    ensures { IfOk result (λ value. view value ≡ end_of_parts pulses
        (view parts.now.released) (view parts.now.timeout) (view parts.now.unfinished)) }
{
    let members = [
        ("released", Member::Value(&parts.released)),
        ("timeout", Member::Value(&parts.timeout)),
        ("unfinished", Member::Value(&parts.unfinished)),
        ("unfinished_pulses", Member::Number(pulses)),
    ];
    object_of(alloc, &members)
}

// How an attempt ended.
fn end_object(
    alloc: Global,
    before: Option<u64>,
    attempt: &HeardAttempt,
) -> Result<Value, AllocError>
    ensures { IfOk result (λ value. view value ≡ end_object before (attempt_in attempt.now)) }
{
    let parts = EndParts {
        released: run_or_null(alloc, before, attempt.release)?,
        timeout: run_or_null(alloc, before, attempt.timeout)?,
        unfinished: first_run(alloc, before, attempt.unfinished)?,
    };
    end_of_parts(alloc, times_of(attempt.unfinished).breaks, &parts)
}

// What stands in the object of an attempt as an object of its own, as a list, or null.
#[derive(Drop)]
struct AttemptParts {
    begins: Value,
    digits: Value,
    end: Value,
}

// The object of attempt `number` of a line with this outcome and these parts.
fn attempt_of_parts<'a>(
    alloc: Global,
    line: LineNo,
    number: usize,
    outcome: &'a Dialled,
    parts: &'a AttemptParts,
) -> Result<Value, AllocError>
    ensures { IfOk result (λ value. view value ≡ attempt_of_parts line number outcome.now
        (view parts.now.begins) (view parts.now.digits) (view parts.now.end)) }
{
    let members = [
        ("attempt", Member::Number(number as u64)),
        ("begins", Member::Value(&parts.begins)),
        ("digits", Member::Value(&parts.digits)),
        ("end", Member::Value(&parts.end)),
        ("heard", Member::Number(heard_in(outcome) as u64)),
        ("line", Member::Number(u64::from(line.get()))),
        ("number", number_in(outcome)),
        ("outcome", Member::Word(outcome_name(outcome))),
        ("reason", reason_in(outcome)),
    ];
    object_of(alloc, &members)
}

// Attempt `number` of a line.
fn attempt_object(
    alloc: Global,
    before: Option<u64>,
    limits: Limits,
    line: LineNo,
    number: usize,
    attempt: &HeardAttempt,
) -> Result<Value, AllocError>
    ensures { IfOk result (λ value.
        view value ≡ attempt_object before limits line number (attempt_in attempt.now)) }
{
    let parts = AttemptParts {
        begins: first_run(alloc, before, attempt.runs)?,
        digits: digits_array(alloc, before, limits, &attempt.outcome, &attempt.digits)?,
        end: end_object(alloc, before, attempt)?,
    };
    attempt_of_parts(alloc, line, number, &attempt.outcome, &parts)
}

// Puts attempt `number` of a line after the text, as a text line.
fn push_object(
    alloc: Global,
    out: &mut String,
    before: Option<u64>,
    limits: Limits,
    line: LineNo,
    number: usize,
    attempt: &HeardAttempt,
) -> Result<(), AllocError>
    ensures { OnOk result (string_bytes out.new ≡ string_bytes out.old
        ++ (compact_text (attempt_object before limits line number (attempt_in attempt.now)) ++ codes "\n")) }
{
    let object = attempt_object(alloc, before, limits, line, number, attempt)?;
    let text = line_of(alloc, &object)?;
    out.push_str(&text)
}

/// Puts the objects of the attempts of a line after the text, each a text line, where so many text lines of the
/// deck stand before its first record. `Err` says that memory ran out.
pub(crate) fn push_objects(
    alloc: Global,
    out: &mut String,
    before: Option<u64>,
    limits: Limits,
    line: LineNo,
    attempts: &[HeardAttempt],
) -> Result<(), AllocError>
    ensures { OnOk result (string_bytes out.new ≡ string_bytes out.old
        ++ objects_from before limits line 1 (map attempt_in attempts.now)) }
{
    for (index, attempt) in attempts.iter().enumerate() {
        push_object(alloc, out, before, limits, line, index + 1, attempt)?;
    }
    Ok(())
}

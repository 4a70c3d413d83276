// An attempt, as it was heard.
ghost use Rattle.std.specs.Prelude.{◌≡◌, ◌++◌, ◌∷◌, List, map, OnOk, IfOk};
ghost use Rattle.xb_heard.specs.Parts.{RunsPart, part_in};
ghost use Rattle.xb_heard.specs.Attempts.{attempt_by, attempt_in, attempts_of_parts};

use crate::digit::{HeardDigit, digits_of_parts, unfinished_of_parts};
use crate::outcome::outcome_of;
use crate::parts::{Cut, Part, hearing_of, parts_of, without_front};
use crate::run::PlacedRun;
use std::alloc::{AllocError, Global};
use xb_model::{Dialled, Limits, Plan};

/// A call attempt: what the line did from its first make on, until it hung up.
#[derive(Drop)]
pub struct HeardAttempt<'a> {
    /// Its makes and breaks, in order. The first is the make that seized a register.
    pub runs: &'a [PlacedRun],
    /// Its digits, spoiled ones too.
    pub digits: Vec<HeardDigit<'a>>,
    /// The pulses after the last digit that no pause ended; empty if there are none.
    pub unfinished: &'a [PlacedRun],
    /// The make that timed it out, if it did; nothing after it was heard.
    pub timeout: Option<PlacedRun>,
    /// The break that hung up, unless the record ends before it.
    pub release: Option<PlacedRun>,
    /// What came of it: its number, or why there is none.
    pub outcome: Dialled,
}

// The attempt of these runs.
fn attempt_of<'a>(
    alloc: Global,
    runs: &'a [PlacedRun],
    release: Option<PlacedRun>,
    plan: Plan,
    limits: Limits,
) -> Result<HeardAttempt<'a>, AllocError>
    ensures { IfOk result (λ attempt. attempt_in attempt ≡ attempt_by plan limits runs.entry.now release) }
{
    let hearing = hearing_of(runs, limits);
    let parts = parts_of(alloc, without_front(hearing.heard), limits, Cut::AtPauses)?;
    let digits = digits_of_parts(alloc, &parts, limits)?;
    let outcome = outcome_of(plan, &digits, hearing.timeout.is_some());
    Ok(HeardAttempt {
        runs,
        digits,
        unfinished: unfinished_of_parts(&parts),
        timeout: hearing.timeout,
        release,
        outcome,
    })
}

// Puts the attempt of a part after the others: an empty part is none.
fn push_attempt<'a>(
    alloc: Global,
    attempts: &mut Vec<HeardAttempt<'a>>,
    part: &Part<'a>,
    plan: Plan,
    limits: Limits,
) -> Result<(), AllocError>
    ensures { OnOk result ((rest : List RunsPart) →
        map attempt_in attempts.new.items ++ attempts_of_parts plan limits rest
        ≡ map attempt_in attempts.old.items ++ attempts_of_parts plan limits (part_in part.now ∷ rest)) }
{
    if !part.inner.is_empty() {
        attempts.push(attempt_of(alloc, part.inner, part.last, plan, limits)?)?;
    }
    Ok(())
}

// The attempts of parts.
pub(crate) fn attempts_of_parts<'a>(
    alloc: Global,
    parts: &[Part<'a>],
    plan: Plan,
    limits: Limits,
) -> Result<Vec<HeardAttempt<'a>>, AllocError>
    ensures { IfOk result (λ attempts.
        map attempt_in attempts.items ≡ attempts_of_parts plan limits (map part_in parts.now)) }
{
    let mut attempts = Vec::new(alloc);
    for part in parts {
        push_attempt(alloc, &mut attempts, part, plan, limits)?;
    }
    Ok(attempts)
}

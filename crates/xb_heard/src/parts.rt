// Runs that are cut into parts.
ghost use Rattle.std.specs.Prelude.{◌≡◌, ◌<◌, length, map, position, find, IfOk, IfSome};
ghost use Rattle.xb_model.specs.Records.{is_break};
ghost use Rattle.xb_heard.specs.PlacedRuns.{run_in};
ghost use Rattle.xb_heard.specs.Parts.{cuts, heard_placed, part_in, parts_of, times_out, without_front, without_idle};

use crate::run::PlacedRun;
use std::alloc::{AllocError, Global};
use xb_model::{Contact, Limits};

// Where runs are cut.
#[derive(Clone, Copy)]
pub(crate) enum Cut {
    // At each break of `release` or more.
    AtReleases,
    // At each make of `pause` or more.
    AtPauses,
}

// Runs, and the one that ends them, if there is one.
#[derive(Clone, Copy)]
pub(crate) struct Part<'a> {
    pub(crate) inner: &'a [PlacedRun],
    pub(crate) last: Option<PlacedRun>,
}

// Whether a run ends a part.
fn cuts(limits: Limits, cut: Cut, run: &PlacedRun) -> bool
    ensures { result ≡ cuts limits cut run.now }
{
    match (cut, run.contact) {
        (Cut::AtReleases, Contact::Brk) => run.ms >= u64::from(limits.release),
        (Cut::AtPauses, Contact::Make) => run.ms >= u64::from(limits.pause),
        _ => false,
    }
}

// The place of the first run that ends a part.
fn first_cut(limits: Limits, cut: Cut, runs: &[PlacedRun]) -> Option<usize>
    ensures place { result ≡ position (cuts limits cut) runs.now }
    ensures within { IfSome result (λ i. i < length runs.now) }
{
    runs.iter().position(|run| cuts(limits, cut, run))
}

// The parts that are left when runs are cut at every run that ends one; what follows the last of
// these is a part too, if there is something.
pub(crate) fn parts_of<'a>(
    alloc: Global,
    runs: &'a [PlacedRun],
    limits: Limits,
    cut: Cut,
) -> Result<Vec<Part<'a>>, AllocError>
    ensures { IfOk result (λ parts. map part_in parts.items ≡ parts_of limits cut runs.entry.now) }
{
    let mut parts = Vec::new(alloc);
    let mut rest = runs;
    while let Some(i) = first_cut(limits, cut, rest) {
        let inner = &rest[..i];
        let last = Some(rest[i]);
        parts.push(Part { inner, last })?;
        rest = &rest[i + 1..];
    }
    if !rest.is_empty() {
        parts.push(Part {
            inner: rest,
            last: None,
        })?;
    }
    Ok(parts)
}

// Whether a run times out.
fn times_out(limits: Limits, run: &PlacedRun) -> bool
    ensures { result ≡ times_out limits run.now }
{
    match run.contact {
        Contact::Make => run.ms >= u64::from(limits.timeout),
        Contact::Brk | Contact::Close => false,
    }
}

// The place of the first run that times out.
fn first_timeout(limits: Limits, runs: &[PlacedRun]) -> Option<usize>
    ensures place { result ≡ position (times_out limits) runs.now }
    ensures within { IfSome result (λ i. i < length runs.now) }
{
    runs.iter().position(|run| times_out(limits, run))
}

// What is heard of an attempt, and the run that times it out, if there is one.
#[derive(Clone, Copy)]
pub(crate) struct Hearing<'a> {
    pub(crate) heard: &'a [PlacedRun],
    pub(crate) timeout: Option<PlacedRun>,
}

// The runs up to and with the first that times out.
pub(crate) fn hearing_of(runs: &[PlacedRun], limits: Limits) -> Hearing<'_>
    ensures heard { result.heard.now ≡ heard_placed limits runs.entry.now }
    ensures timeout { result.timeout ≡ find (times_out limits) runs.entry.now }
{
    match first_timeout(limits, runs) {
        Some(i) => Hearing {
            heard: &runs[..i + 1],
            timeout: Some(runs[i]),
        },
        None => Hearing {
            heard: runs,
            timeout: None,
        },
    }
}

// Runs without a first that is a break.
pub(crate) fn without_idle(runs: &[PlacedRun]) -> &[PlacedRun]
    ensures { result.now ≡ without_idle runs.entry.now }
{
    match runs.split_first() {
        Some((first, rest)) if first.contact == Contact::Brk => rest,
        _ => runs,
    }
}

// Runs without the first.
pub(crate) fn without_front(runs: &[PlacedRun]) -> &[PlacedRun]
    ensures { result.now ≡ without_front runs.entry.now }
{
    match runs.split_first() {
        Some((_first, rest)) => rest,
        None => runs,
    }
}

// What the digits of a line's attempts are, and how many of these are as ringing makes them.
ghost use Rattle.std.specs.Prelude.{◌≡◌, count_by, map};
ghost use Rattle.std.specs.List.{list_any};
ghost use Rattle.xb_heard.specs.Attempts.{attempt_in};
ghost use Rattle.xb_heard.specs.Digits.{digit_in, train_in};
ghost use Rattle.xb_heard.specs.PlacedRuns.{run_in};
ghost use Rattle.xb_model.specs.Signals.{is_bad_run};
ghost use Rattle.xb_doubts.specs.Attempts.{begins_short, has_trains, is_clear, is_whole};
ghost use Rattle.xb_doubts.specs.Counted.{none_counted, with_counted};
ghost use Rattle.xb_doubts.specs.Told.{counted_told, is_call, is_ring_told, is_whole_told, trains_in};

use xb_heard::{HeardAttempt, HeardDigit, PlacedRun, breaks_among};
use xb_model::{Contact, Limits, MOST_PULSES};

/// So many attempts that are as ringing makes them are told of.
pub(crate) const LEAST_RINGS: usize = 10;

/// An attempt of so many clear digits is a call, whichever way round the wire was.
pub(crate) const LEAST_DIGITS: usize = 3;

/// A digit of fewer pulses may be a contact that closes or opens once.
pub(crate) const LEAST_PULSES: u8 = 2;

/// A make of fewer ms may be half a period of a line's ringing, and is no hand that lifts a receiver.
pub(crate) const RINGING_MS: u64 = 100;

/// What attempts are.
#[derive(Clone, Copy)]
pub(crate) struct Counted {
    /// Whether a digit is dialled in one.
    pub(crate) dials: bool,
    /// Whether one is that no pulse spoils.
    pub(crate) dials_whole: bool,
    /// Whether three clear digits are dialled in one.
    pub(crate) numbers: bool,
    /// How many are as ringing makes them, up to ten.
    pub(crate) rings: usize,
}

// Whether a run is out of its limits in a digit.
fn is_bad(limits: Limits, run: &PlacedRun) -> bool
    ensures { result ≡ is_bad_run limits run.now.contact run.now.ms }
{
    match run.contact {
        Contact::Make => run.ms < u64::from(limits.make_min),
        Contact::Brk => {
            run.ms < u64::from(limits.pulse_min) || u64::from(limits.pulse_max) < run.ms
        }
        Contact::Close => false,
    }
}

// Whether no pulse spoils a digit.
fn is_whole(limits: Limits, digit: &HeardDigit<'_>) -> bool
    ensures { result ≡ is_whole limits (train_in (digit_in digit.now)) }
{
    for run in digit.pulses {
        if is_bad(limits, run) {
            return false;
        }
    }
    true
}

// Whether it is such a digit of two to ten pulses.
#[tactic(auto, using(crate::proofs::ToldAttempts::breaks_are))]
fn is_clear(limits: Limits, digit: &HeardDigit<'_>) -> bool
    ensures { result ≡ is_clear limits (train_in (digit_in digit.now)) }
{
    let breaks = breaks_among(digit.pulses);
    is_whole(limits, digit)
        && (usize::from(LEAST_PULSES) <= breaks && breaks <= usize::from(MOST_PULSES))
}

// How many digits are.
fn count_clear(limits: Limits, digits: &[HeardDigit<'_>]) -> usize
    ensures { result ≡ count_by (is_clear limits) (map train_in (map digit_in digits.now)) }
{
    let mut count = 0;
    for digit in digits {
        if is_clear(limits, digit) {
            count += 1;
        }
    }
    count
}

// Whether a digit is dialled in an attempt.
#[tactic(auto, using(crate::proofs::ToldAttempts::some_trains))]
fn has_digit(attempt: &HeardAttempt<'_>) -> bool
    ensures { result ≡ has_trains (trains_in (attempt_in attempt.now)) }
{
    !attempt.digits.is_empty()
}

// Whether one is that no pulse spoils.
fn has_whole_digit(limits: Limits, attempt: &HeardAttempt<'_>) -> bool
    ensures { result ≡ is_whole_told limits (attempt_in attempt.now) }
{
    for digit in &attempt.digits {
        if is_whole(limits, digit) {
            return true;
        }
    }
    false
}

// Whether three or more clear ones are.
fn is_call(limits: Limits, attempt: &HeardAttempt<'_>) -> bool
    ensures { result ≡ is_call limits (attempt_in attempt.now) }
{
    LEAST_DIGITS <= count_clear(limits, &attempt.digits)
}

// Whether the first of runs is a make as short as those of ringing.
fn begins_short(runs: &[PlacedRun]) -> bool
    ensures { result ≡ begins_short (map run_in runs.now) }
{
    match runs {
        [] => false,
        [first, ..] => match first.contact {
            Contact::Make => first.ms < RINGING_MS,
            Contact::Brk | Contact::Close => false,
        },
    }
}

// Whether an attempt is as ringing makes it.
fn is_ring(attempt: &HeardAttempt<'_>) -> bool
    ensures { result ≡ is_ring_told (attempt_in attempt.now) }
{
    begins_short(attempt.runs) && !has_digit(attempt)
}

// Whether a digit is dialled in one of some attempts.
fn any_dials(attempts: &[HeardAttempt<'_>]) -> bool
    ensures { result ≡ list_any (λ attempt. has_trains (trains_in attempt)) (map attempt_in attempts.now) }
{
    for attempt in attempts {
        if has_digit(attempt) {
            return true;
        }
    }
    false
}

// Whether a digit that no pulse spoils is.
fn any_dials_whole(limits: Limits, attempts: &[HeardAttempt<'_>]) -> bool
    ensures { result ≡ list_any (is_whole_told limits) (map attempt_in attempts.now) }
{
    for attempt in attempts {
        if has_whole_digit(limits, attempt) {
            return true;
        }
    }
    false
}

/// Whether three clear digits are dialled in one of some attempts.
pub(crate) fn any_calls(limits: Limits, attempts: &[HeardAttempt<'_>]) -> bool
    ensures { result ≡ list_any (is_call limits) (map attempt_in attempts.now) }
{
    for attempt in attempts {
        if is_call(limits, attempt) {
            return true;
        }
    }
    false
}

// How many attempts are as ringing makes them.
fn count_rings(attempts: &[HeardAttempt<'_>]) -> usize
    ensures { result ≡ count_by is_ring_told (map attempt_in attempts.now) }
{
    let mut count = 0;
    for attempt in attempts {
        if is_ring(attempt) {
            count += 1;
        }
    }
    count
}

/// There are no attempts.
pub(crate) fn none_counted() -> Counted
    ensures { result ≡ none_counted }
{
    Counted {
        dials: false,
        dials_whole: false,
        numbers: false,
        rings: 0,
    }
}

/// What some attempts are.
pub(crate) fn counted_of(limits: Limits, attempts: &[HeardAttempt<'_>]) -> Counted
    ensures { result ≡ counted_told limits (map attempt_in attempts.now) }
{
    Counted {
        dials: any_dials(attempts),
        dials_whole: any_dials_whole(limits, attempts),
        numbers: any_calls(limits, attempts),
        rings: count_rings(attempts).min(LEAST_RINGS),
    }
}

impl Counted {
    /// The same with others.
    pub(crate) fn with(self, other: Counted) -> Counted
        ensures { result ≡ with_counted self other }
    {
        Counted {
            dials: self.dials || other.dials,
            dials_whole: self.dials_whole || other.dials_whole,
            numbers: self.numbers || other.numbers,
            rings: self.rings.saturating_add(other.rings).min(LEAST_RINGS),
        }
    }
}

// The rows of one line: what is sent, as makes and breaks.
ghost use Rattle.std.specs.Prelude.{◌≡◌, ◌++◌, ◌∷◌, [], true, OnOk, IfErr};
ghost use Rattle.xb_model.specs.Rows.{row_of};
ghost use Rattle.xb_model.specs.declared.row.Contact.TheVariants.{Make, Brk};
ghost use Rattle.xb_calls.specs.Dialling.{on_line};
ghost use Rattle.xb_worn.specs.SentCalls.{call_runs, pulse_runs, sent_call};
ghost use Rattle.xb_worn.specs.WornRows.{IsMisfit, is_time, next_rows, pulse_fits, times_fit};

use crate::pulse::SentPulse;
use std::alloc::AllocError;
use xb_model::{Contact, GREATEST_MS, LineNo, Row};

/// Why a call has no rows.
#[derive(Clone, Copy, Debug, PartialEq, Eq)]
pub(crate) enum RunFault {
    /// A time is under 1 or over 86,400,000 ms.
    Time,
    /// Memory ran out.
    NoMemory,
}

impl From<AllocError> for RunFault {
    ghost use Rattle.std.specs.Prelude.{◌≡◌};
    ghost use Rattle.xb_worn.specs.declared.runs.RunFault.TheVariants.{NoMemory};

    ghost from_gives = { λ _ e. e ≡ NoMemory };

    fn from(_error: AllocError) -> RunFault {
        RunFault::NoMemory
    }
}

/// Whether a row may last so many ms, and lasts.
pub(crate) fn is_time(ms: u64) -> bool
    ensures { result ≡ is_time ms }
{
    1 <= ms && ms <= u64::from(GREATEST_MS)
}

// Puts a row after the others.
fn push_row(rows: &mut Vec<Row>, row: Row) -> Result<(), AllocError>
    ensures { OnOk result (rows.new.items ≡ rows.old.items ++ row ∷ []) }
{
    rows.push(row)?;
    Ok(())
}

// Puts a make of a line after the rows.
fn push_make(rows: &mut Vec<Row>, line: LineNo, ms: u64) -> Result<(), RunFault>
    ensures rows { OnOk result (rows.new.items ≡ rows.old.items ++ row_of line Make ms ∷ []) }
    ensures fits { OnOk result (is_time ms ≡ true) }
    ensures fault { IfErr result (λ f. IsMisfit f (is_time ms)) }
{
    if !is_time(ms) {
        return Err(RunFault::Time);
    }
    let row = Row::new(line, Contact::Make, ms as u32).unwrap();
    push_row(rows, row)?;
    Ok(())
}

// Puts a break of a line after the rows.
fn push_break(rows: &mut Vec<Row>, line: LineNo, ms: u64) -> Result<(), RunFault>
    ensures rows { OnOk result (rows.new.items ≡ rows.old.items ++ row_of line Brk ms ∷ []) }
    ensures fits { OnOk result (is_time ms ≡ true) }
    ensures fault { IfErr result (λ f. IsMisfit f (is_time ms)) }
{
    if !is_time(ms) {
        return Err(RunFault::Time);
    }
    let row = Row::new(line, Contact::Brk, ms as u32).unwrap();
    push_row(rows, row)?;
    Ok(())
}

// Puts a pulse of a line after the rows.
fn push_pulse(rows: &mut Vec<Row>, line: LineNo, pulse: SentPulse) -> Result<(), RunFault>
    ensures rows { OnOk result (rows.new.items ≡ rows.old.items ++ on_line line (pulse_runs pulse)) }
    ensures fits { OnOk result (pulse_fits pulse ≡ true) }
    ensures fault { IfErr result (λ f. IsMisfit f (pulse_fits pulse)) }
{
    push_break(rows, line, pulse.break_ms)?;
    push_make(rows, line, pulse.make_ms)
}

// Puts a call after the rows: the make that seizes, and the pulses.
fn push_call(
    rows: &mut Vec<Row>,
    line: LineNo,
    seize_ms: u32,
    pulses: &[SentPulse],
) -> Result<(), RunFault>
    ensures rows { let runs = call_runs (sent_call line seize_ms pulses.now) in
        OnOk result (rows.new.items ≡ rows.old.items ++ on_line line runs) }
    ensures fits { OnOk result (times_fit (sent_call line seize_ms pulses.now) ≡ true) }
    ensures fault { IfErr result (λ f. IsMisfit f (times_fit (sent_call line seize_ms pulses.now))) }
{
    push_make(rows, line, u64::from(seize_ms))?;
    for pulse in pulses {
        push_pulse(rows, line, *pulse)?;
    }
    Ok(())
}

/// Puts a call after the rows of its line: a break hangs up, if there are any, and then the call follows.
pub(crate) fn push_next_call(
    rows: &mut Vec<Row>,
    hang_up_ms: u32,
    line: LineNo,
    seize_ms: u32,
    pulses: &[SentPulse],
) -> Result<(), RunFault>
    requires { is_time hang_up_ms ≡ true }
    ensures rows { let call = sent_call line seize_ms pulses.now in
        OnOk result (rows.new.items ≡ next_rows hang_up_ms call rows.old.items) }
    ensures fits { OnOk result (times_fit (sent_call line seize_ms pulses.now) ≡ true) }
    ensures fault { IfErr result (λ f. IsMisfit f (times_fit (sent_call line seize_ms pulses.now))) }
{
    if !rows.is_empty() {
        push_break(rows, line, u64::from(hang_up_ms))?;
    }
    push_call(rows, line, seize_ms, pulses)
}

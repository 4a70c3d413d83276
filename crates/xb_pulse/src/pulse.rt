// The pulse stage.
ghost use Rattle.std.specs.Prelude.{◌≡◌, ◌<◌, ◌≤◌};
ghost use Rattle.arrayvec.specs.ArrayVec.{array_vec_len};
ghost use Rattle.xb_pulse.specs.Counters.{IsWithin};
ghost use Rattle.xb_pulse.specs.Laws.{HearsTheRecord, HearsTheRecordOfEach, HearsSoFar, HearsSoFarOfEach};
ghost use Rattle.xb_pulse.specs.Machine.{machine, longer, with_break, with_make, judge_timeout, judge_pause};
ghost use Rattle.xb_pulse.specs.Machine.{take_make, lengthen_break, judge_release, take_close, take_row};
ghost use Rattle.xb_pulse.specs.Machine.{phase_after, signals_by};
ghost use Rattle.xb_pulse.specs.Outputs.{outs_on_line};

use crate::state::{Phase, PulseState, Tally};
use crate::step::{MOST_SIGNALS, Step};
use arrayvec::ArrayVec;
use std::marker::Model;
use xb_model::{Contact, GREATEST_LIMIT, Limits, LineStage, MANY_BREAKS, On, Row, Signal, send};

/// The stage that turns the rows of each line's loop into signals, by its limits.
///
/// Neighbouring rows of one contact are one run, and rows of 0 ms count for nothing. Each limit is
/// judged on the whole run so far, and each signal is sent by the row in which its limit is
/// reached:
/// - `Seize` by the first make of a line that is on hook;
/// - `Digit` where a make after a break reaches `pause`: its train's breaks, at most 11, and
///   whether one of them is not `pulse_min` to `pulse_max`, or a make between two of them is under
///   `make_min`;
/// - `TimeOut` where a make reaches `timeout`, also in the row that seized or ended a digit; from
///   then on nothing but a release or the close is heard;
/// - `Release` where a break in an attempt reaches `release`;
/// - `Close` by a close row; rows after it send nothing.
#[derive(Drop)]
pub struct Pulse {
    limits: Limits,
}

impl Model for Pulse {
    ghost use Rattle.xb_model.specs.declared.limits.Limits.{Limits};

    ghost Value = { Limits };

    ghost view = { λ pulse. pulse.limits };
}

// A running total, which stops at the greatest limit that there is.
fn longer(total: u32, ms: u32) -> u32
    ensures { result ≡ longer total ms }
{
    total.saturating_add(ms).min(GREATEST_LIMIT)
}

// A close row: only the first is heard.
fn take_close(phase: Phase) -> Step
    ensures value { result ≡ take_close phase }
    ensures within { IsWithin result.phase }
{
    let closed = Step::enter(Phase::Closed);
    if phase == Phase::Closed {
        closed
    } else {
        closed.with_first(Signal::Close)
    }
}

impl Pulse {
    /// The stage that judges by these limits. Where they are lawful, what it sends on a line whose
    /// record is closed are the record's signals. While the record is open, what it has sent,
    /// followed by a close, are the signals of the rows so far. Both hold of the rows of one line
    /// alone, and of each line among the rows of all lines.
    pub fn new(limits: Limits) -> Pulse
        ensures limits { result ≡ limits }
        ensures whole { HearsTheRecord limits (⟦<Pulse as LineStage>⟧.machine result) }
        ensures so_far { HearsSoFar limits (⟦<Pulse as LineStage>⟧.machine result) }
        ensures each_whole { HearsTheRecordOfEach limits (⟦<Pulse as LineStage>⟧.machine result) }
        ensures each_so_far { HearsSoFarOfEach limits (⟦<Pulse as LineStage>⟧.machine result) }
    {
        Pulse { limits }
    }

    // The tally after a break of this length has ended.
    fn with_break(&self, total: u32, tally: Tally) -> Tally
        ensures { result ≡ with_break self.now total tally }
    {
        Tally {
            breaks: tally.breaks.saturating_add(1).min(MANY_BREAKS),
            bad: tally.bad || total < self.limits.pulse_min || total > self.limits.pulse_max,
        }
    }

    // The tally after a make of this length, inside the train, has ended.
    fn with_make(&self, total: u32, tally: Tally) -> Tally
        ensures { result ≡ with_make self.now total tally }
    {
        Tally {
            breaks: tally.breaks,
            bad: tally.bad || total < self.limits.make_min,
        }
    }

    // A make of this length in no train times the attempt out once it reaches `timeout`.
    fn judge_timeout(&self, total: u32) -> Step
        requires { total ≤ GREATEST_LIMIT }
        ensures value { result ≡ judge_timeout self.now total }
        ensures room { array_vec_len result.sent < MOST_SIGNALS }
        ensures within { IsWithin result.phase }
    {
        if total >= self.limits.timeout {
            Step::enter(Phase::TimedOut(0)).with_first(Signal::TimeOut)
        } else {
            Step::enter(Phase::BetweenTrains(total))
        }
    }

    // A make of this length after a part of a train ends the train once it reaches `pause`.
    fn judge_pause(&self, total: u32, tally: Tally) -> Step
        requires { IsWithin (Phase.InMake total tally) }
        ensures value { result ≡ judge_pause self.now total tally }
        ensures within { IsWithin result.phase }
    {
        if total >= self.limits.pause {
            let digit = Signal::Digit(tally.breaks, tally.bad);
            self.judge_timeout(total).with_first(digit)
        } else {
            Step::enter(Phase::InMake(total, tally))
        }
    }

    // A make row of 1 ms or more.
    fn take_make(&self, phase: Phase, ms: u32) -> Step
        requires { IsWithin phase }
        ensures value { result ≡ take_make self.now phase ms }
        ensures within { IsWithin result.phase }
    {
        match phase {
            Phase::OnHook => self.judge_timeout(longer(0, ms)).with_first(Signal::Seize),
            Phase::BetweenTrains(total) => self.judge_timeout(longer(total, ms)),
            Phase::InBreak(total, tally) => {
                self.judge_pause(longer(0, ms), self.with_break(total, tally))
            }
            Phase::InMake(total, tally) => self.judge_pause(longer(total, ms), tally),
            Phase::TimedOut(_) => Step::enter(Phase::TimedOut(0)),
            Phase::Closed => Step::enter(Phase::Closed),
        }
    }

    // A break begins or grows longer; on hook it is idle time.
    fn lengthen_break(&self, phase: Phase, ms: u32) -> Phase
        requires { IsWithin phase }
        ensures value { result ≡ lengthen_break self.now phase ms }
        ensures within { IsWithin result }
    {
        match phase {
            Phase::BetweenTrains(_) => Phase::InBreak(longer(0, ms), Tally::none()),
            Phase::InBreak(total, tally) => Phase::InBreak(longer(total, ms), tally),
            Phase::InMake(total, tally) => {
                Phase::InBreak(longer(0, ms), self.with_make(total, tally))
            }
            Phase::TimedOut(total) => Phase::TimedOut(longer(total, ms)),
            Phase::OnHook | Phase::Closed => phase,
        }
    }

    // The break of a phase releases the line if it is long enough.
    fn judge_release(&self, phase: Phase) -> Step
        requires { IsWithin phase }
        ensures value { result ≡ judge_release self.now phase }
        ensures within { IsWithin result.phase }
    {
        match phase {
            Phase::InBreak(total, _) | Phase::TimedOut(total) if total >= self.limits.release => {
                Step::enter(Phase::OnHook).with_first(Signal::Release)
            }
            _ => Step::enter(phase),
        }
    }

    // A row of this contact and length.
    fn take_row(&self, phase: Phase, contact: Contact, ms: u32) -> Step
        requires { IsWithin phase }
        ensures value { result ≡ take_row self.now phase contact ms }
        ensures within { IsWithin result.phase }
    {
        match contact {
            Contact::Make if ms > 0 => self.take_make(phase, ms),
            Contact::Brk if ms > 0 => self.judge_release(self.lengthen_break(phase, ms)),
            Contact::Make | Contact::Brk => Step::enter(phase),
            Contact::Close => take_close(phase),
        }
    }

    /// Takes one row with its line's state, which then is the state for the line's next row, and
    /// returns the signals that it sends. It is what `step` does, for a caller without lists.
    pub fn take(&self, state: &mut PulseState, row: Row) -> ArrayVec<Signal, MOST_SIGNALS>
        ensures state { state.new ≡ phase_after self.now state.old row }
        ensures sent { result.items ≡ signals_by self.now state.old row }
    {
        let Step { sent, phase } = self.take_row(state.phase(), row.contact(), row.ms());
        *state = PulseState::at(phase);
        sent
    }
}

impl LineStage for Pulse {
    type In = Row;

    type Out = On<Signal>;

    type State = PulseState;

    ghost machine = { machine };

    ghost on_line = { outs_on_line };

    fn fresh(&self) -> PulseState {
        PulseState::at(Phase::OnHook)
    }

    fn step(&self, state: &mut PulseState, item: Row, out: &mut Vec<On<Signal>>) {
        let Step { sent, phase } = self.take_row(state.phase(), item.contact(), item.ms());
        *state = PulseState::at(phase);
        for what in sent.as_slice() {
            send(item.line(), out, *what);
        }
    }
}

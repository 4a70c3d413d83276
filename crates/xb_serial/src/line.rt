// The chain on one line, one row or one signal at a time.
ghost use Rattle.std.specs.Prelude.{◌≡◌, ◌≤◌, [], ◌∷◌, IfNone, IfSome, length};
ghost use Rattle.xb_model.specs.Tapes.{EndsAtLast};
ghost use Rattle.xb_model.specs.OnLines.{on_line};
ghost use Rattle.xb_serial.specs.Chain.{fresh_line, marks_of_row, state_after_row};
ghost use Rattle.xb_serial.specs.Entrances.{marks_from, marks_of_signal, outcomes_from, state_after_signal, state_after_signals};

use crate::outcomes::outcome_of;
use arrayvec::ArrayVec;
use xb_model::{LineStage, MOST_OUTPUTS, Mark, Row, Signal};
use xb_pulse::{Pulse, PulseState};
use xb_register::{Register, RegisterState};
use xb_routes::RouteTable;
use xb_sender::marks_of;

/// The most marks that one row gives: those of one entry.
pub const MOST_MARKS: usize = MOST_OUTPUTS;

/// What the stages know of a line from its rows so far, or from its signals.
#[derive(Drop)]
pub struct Line {
    /// What the pulse stage knows.
    pub pulse: PulseState,
    /// What the register knows.
    pub register: RegisterState,
}

impl Line {
    /// A line before its first row.
    pub fn fresh(table: &RouteTable) -> Line
        ensures { result ≡ fresh_line table.now }
    {
        Line {
            pulse: Pulse::new(table.limits()).fresh(),
            register: Register::new(table.plan()).fresh(),
        }
    }

    // Takes signals of which no more than one brings an outcome: the marks of that.
    fn hear_all(
        &mut self,
        table: &RouteTable,
        signals: &[Signal],
    ) -> Option<ArrayVec<Mark, MOST_MARKS>>
        requires { length (outcomes_from table.now self.old.register signals.now) ≤ 1 }
        ensures marks { IfSome result (λ marks. marks.items
            ≡ marks_from table.now self.old.register signals.now) }
        ensures none { IfNone result (marks_from table.now self.old.register signals.now ≡ []) }
        ensures entry { IfSome result (λ marks. EndsAtLast marks.items) }
        ensures state { self.new ≡ state_after_signals table.now self.old signals.now }
    {
        match outcome_of(&Register::new(table.plan()), &mut self.register, signals) {
            Some(dialled) => Some(marks_of(&table.order_of(&dialled))),
            None => None,
        }
    }

    /// Takes one signal of the line, for a caller that hears seizures, digits and releases by itself. It
    /// goes to the register and on through the stages after it, as one that a row sends does, and what is
    /// known of the loop stays. Gives the marks that it makes certain, one whole entry or nothing. It
    /// asks for nothing, cannot fail, and takes no memory.
    pub fn hear(&mut self, table: &RouteTable, signal: Signal) -> Option<ArrayVec<Mark, MOST_MARKS>>
        ensures marks { IfSome result (λ marks. marks.items
            ≡ marks_of_signal table.now self.old.register signal) }
        ensures none { IfNone result (marks_of_signal table.now self.old.register signal ≡ []) }
        ensures entry { IfSome result (λ marks. EndsAtLast marks.items) }
        ensures state { self.new ≡ state_after_signal table.now self.old signal }
    {
        self.hear_all(table, &[signal])
    }

    /// Takes one row of the line, through all stages at once: the marks that it makes certain, which
    /// are one whole entry, or nothing. It asks for nothing, cannot fail, and takes no memory.
    pub fn take(&mut self, table: &RouteTable, row: Row) -> Option<ArrayVec<Mark, MOST_MARKS>>
        ensures marks { IfSome result (λ marks. on_line row.line marks.items
            ≡ marks_of_row table.now self.old row) }
        ensures none { IfNone result (marks_of_row table.now self.old row ≡ []) }
        ensures entry { IfSome result (λ marks. EndsAtLast marks.items) }
        ensures state { self.new ≡ state_after_row table.now self.old row }
    {
        let signals = Pulse::new(table.limits()).take(&mut self.pulse, row);
        self.hear_all(table, &signals)
    }
}

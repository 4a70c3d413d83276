// The office behind a register: it routes what the register takes, and writes what is told of each call.
ghost use Rattle.std.specs.Prelude.{◌≡◌};

use crate::fault::WritingFault;
use crate::request::Form;
use crate::telling::{HEADER, dialled_line, entry_line, is_refusal, totals_line};
use std::alloc::{AllocError, Global};
use std::io::Write;
use xb_incoming::{Register, TimedKey};
use xb_model::{Dialled, LineNo, Order};
use xb_outgoing::OutgoingTable;
use xb_text::write_whole;

/// An office, its register, and how many calls of each kind it has told.
#[derive(Drop)]
pub(crate) struct Office {
    pub(crate) form: Form,
    pub(crate) line: LineNo,
    pub(crate) table: OutgoingTable,
    pub(crate) register: Register,
    pub(crate) keyed: usize,
    pub(crate) refused: usize,
    pub(crate) dialled: usize,
}

impl Office {
    ghost use Rattle.std.specs.Prelude.{◌≡◌, ◌≤◌, ◌<◌, ◌+◌, ◌^◌, ℕ, List, [], ◌∷◌, ◌++◌, Option, IfErr, IfOk, OnOk, string_bytes};
    ghost use Rattle.std.specs.Io.KnownBytes.{Appends};
    ghost use Rattle.xb_text.specs.Writing.{AppendsBeginning};
    ghost use Rattle.xb_tandem.specs.Entries.{order_line, told_orders};
    ghost use Rattle.xb_incoming.specs.declared.key.TimedKey.{TimedKey as Key};
    ghost use Rattle.xb_model.specs.declared.order.Order.{Order as Ordered};
    ghost use Rattle.xb_outgoing.specs.Tables.{outgoing_order};
    ghost use Rattle.xb_tandem.specs.Written.{CountsOne, Ends, Finishes, HasTold, HasWritten, IsWithCounts, Takes, Tells, left_of};

    /// Writes what comes before all calls: the header of rows.
    pub(crate) fn begin<W: Write>(&self, out: &mut W) -> Result<(), WritingFault>
        ensures whole { OnOk result (Appends (W.contents out.old) (W.contents out.new)
            (told_orders self.now.form self.now.line self.now.table.pulsed [])) }
        ensures beginning { IfErr result (λ _. AppendsBeginning (W.contents out.old) (W.contents out.new)
            (told_orders self.now.form self.now.line self.now.table.pulsed [])) }
    {
        match self.form {
            Form::Page => Ok(()),
            Form::Json => Ok(()),
            Form::Rows => Ok(write_whole(out, HEADER.as_bytes())?),
        }
    }

    // Counts an order more.
    fn count(&mut self, order: &Order)
        requires { self.old.keyed + self.old.refused + self.old.dialled + 1 < 2 ^ 64 }
        ensures counts { CountsOne self.old self.new order.now }
        ensures same { IsWithCounts self.old self.new }
    {
        if self.table.is_dialled(order) {
            self.dialled += 1;
        } else if is_refusal(order) {
            self.refused += 1;
        } else {
            self.keyed += 1;
        }
    }

    // What is written of an order.
    fn order_line(&self, alloc: Global, order: &Order) -> Result<String, AllocError>
        requires { self.now.keyed + self.now.refused + self.now.dialled + 1 < 2 ^ 64 }
        ensures { IfOk result (λ text. string_bytes text ≡ order_line self.now.form self.now.line self.now.table.pulsed
            (self.now.keyed + self.now.refused) self.now.dialled order.now) }
    {
        if self.table.is_dialled(order) {
            return dialled_line(alloc, self.form, self.line, self.dialled, order);
        }
        let number = self.keyed + self.refused + 1;
        entry_line(alloc, self.form, self.line, number, order)
    }

    // Writes what is told of an outcome, and counts it.
    fn tell<W: Write>(
        &mut self,
        alloc: Global,
        outcome: &Dialled,
        out: &mut W,
    ) -> Result<(), WritingFault>
        requires { self.old.keyed + self.old.refused + self.old.dialled + 1 < 2 ^ 64 }
        ensures told { (orders : List Ordered) (start : Option (List ℕ)) →
            HasTold self.old orders start (W.contents out.old) →
            Tells self.new (orders ++ outgoing_order self.old.table outcome.now ∷ []) result start
            (W.contents out.new) }
        ensures one { self.new.keyed + self.new.refused + self.new.dialled
            ≤ self.old.keyed + self.old.refused + self.old.dialled + 1 }
        ensures same { IsWithCounts self.old self.new }
    {
        let order = self.table.order_of(outcome);
        let text = self.order_line(alloc, &order)?;
        write_whole(out, text.as_bytes())?;
        self.count(&order);
        Ok(())
    }

    /// Takes a key, and writes what is told of the call that it makes certain, if it does. On an `Err` the beginning of
    /// this was written.
    pub(crate) fn take<W: Write>(
        &mut self,
        alloc: Global,
        key: TimedKey,
        out: &mut W,
    ) -> Result<(), WritingFault>
        requires { self.old.keyed + self.old.refused + self.old.dialled + 1 < 2 ^ 64 }
        ensures written { (limit : ℕ) (keys : List Key) (start : Option (List ℕ)) →
            HasWritten limit self.old keys start (W.contents out.old) →
            Takes limit self.new (keys ++ key ∷ []) result start (W.contents out.new) }
        ensures one { self.new.keyed + self.new.refused + self.new.dialled
            ≤ self.old.keyed + self.old.refused + self.old.dialled + 1 }
        ensures same { (self.new.form ≡ self.old.form) × (self.new.line ≡ self.old.line)
            × (self.new.table ≡ self.old.table) }
    {
        match self.register.take(key) {
            Some(outcome) => self.tell(alloc, &outcome, out),
            None => Ok(()),
        }
    }

    // Writes what is told of the keying that is open where the keys end, if one is.
    fn finish<W: Write>(&mut self, alloc: Global, out: &mut W) -> Result<(), WritingFault>
        requires { self.old.keyed + self.old.refused + self.old.dialled + 1 < 2 ^ 64 }
        ensures one { self.new.keyed + self.new.refused + self.new.dialled
            ≤ self.old.keyed + self.old.refused + self.old.dialled + 1 }
        ensures written { (limit : ℕ) (keys : List Key) (start : Option (List ℕ)) →
            HasWritten limit self.old keys start (W.contents out.old) →
            Finishes limit self.new keys result start (W.contents out.new) }
        ensures same { IsWithCounts self.old self.new }
    {
        match self.register.finish() {
            Some(outcome) => self.tell(alloc, &outcome, out),
            None => Ok(()),
        }
    }

    // How many calls are not in what was written.
    fn left_out(&self) -> usize
        requires { self.now.keyed + self.now.refused + self.now.dialled < 2 ^ 64 }
        ensures { result ≡ left_of self.now }
    {
        match self.form {
            Form::Page => self.dialled,
            Form::Json => 0,
            Form::Rows => self.keyed + self.refused,
        }
    }

    /// Ends the keys: writes what is told of the keying that is open, if one is, and the totals, and says how many
    /// calls are not in what was written. On an `Err` the beginning of this was written.
    pub(crate) fn end<W: Write>(
        &mut self,
        alloc: Global,
        out: &mut W,
    ) -> Result<usize, WritingFault>
        requires { self.old.keyed + self.old.refused + self.old.dialled + 1 < 2 ^ 64 }
        ensures { (limit : ℕ) (keys : List Key) (start : Option (List ℕ)) →
            HasWritten limit self.old keys start (W.contents out.old) →
            Ends limit self.old keys result start (W.contents out.new) }
    {
        self.finish(alloc, out)?;
        let text = totals_line(alloc, self.form, self.keyed, self.refused)?;
        write_whole(out, text.as_bytes())?;
        Ok(self.left_out())
    }
}

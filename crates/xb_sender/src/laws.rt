//! What orders put on a tape: each law is the contract of a function that does nothing.
ghost use Rattle.std.specs.Prelude.{◌≡◌, List, ◌∷◌, ◌++◌, map};
ghost use Rattle.std.specs.List.{flat_map};
ghost use Rattle.xb_model.specs.declared.mark.Mark.{Mark};
ghost use Rattle.xb_model.specs.declared.order.Order.{Order};
ghost use Rattle.xb_model.specs.Keyings.{marks_of};
ghost use Rattle.xb_model.specs.Tapes.{EndsAtLast, entries_of};
ghost use Rattle.xb_sender.specs.Laws.{GivesMarks};
ghost use Rattle.xb_sender.specs.Machine.{machine};

/// The orders of a line give their marks, in order.
pub fn marks_of_orders()
    ensures { GivesMarks machine }
{}

/// Of the marks of an order exactly the last ends an entry.
pub fn only_the_last_mark_ends()
    ensures { (order : Order) → EndsAtLast (marks_of order) }
{}

/// The marks of an order are one entry, whatever marks come after them; so the entries of a line
/// are those of its orders, each once.
pub fn one_entry_for_each_order()
    ensures first { (order : Order) (marks : List Mark) →
        entries_of (marks_of order ++ marks) ≡ marks_of order ∷ entries_of marks }
    ensures all { (orders : List Order) → entries_of (flat_map marks_of orders) ≡ map marks_of orders }
{}

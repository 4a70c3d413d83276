//! What the definitions give: each law is the contract of a function that does nothing.
ghost use Rattle.xb_calls.specs.Heard.{DialledIsHeard, OrdersAreDialled};
ghost use Rattle.xb_calls.specs.WorkedCalls.{BothOrders, CallsOfTexts, NumbersOfCalls, RowsOfCalls};
ghost use Rattle.std.specs.Prelude.{◌≡◌};
ghost use Rattle.xb_calls.specs.declared.call_texts.TheConstants.{MOST_TEXT_BYTES};
ghost use Rattle.xb_calls.specs.declared.told_field.TheConstants.{MOST_TOLD_BYTES};

/// The rows of some calls, and the numbers that are heard of them.
#[tactic(auto, unfolding(crate::specs::Dialling::pulses, xb_model::specs::WorkedRows::pulses, xb_model::specs::WorkedRows::dial))]
pub fn rows_of_calls()
    ensures rows { RowsOfCalls }
    ensures numbers { NumbersOfCalls }
{}

/// Both orders of some lists.
#[tactic(auto, unfolding(crate::specs::Dialling::rounds))]
pub fn both_orders()
    ensures { BothOrders }
{}

/// The calls of some texts, and each fault.
#[tactic(auto, unfolding(crate::specs::CallTexts::calls_from, csv::specs::Reading::strip_bom))]
pub fn calls_of_texts()
    ensures { CallsOfTexts }
{}

/// A number that is dialled is the number that is heard, whatever rows of other lines stand between
/// its own.
#[tactic(auto, using(crate::proofs::HeardNumbers::dialled_is_heard))]
pub fn dialled_is_heard()
    ensures { DialledIsHeard }
{}

/// In both orders of the lines, the rows of each line are those that it dials.
#[tactic(auto, using(crate::proofs::RowsOfLines::orders_are_dialled))]
pub fn orders_are_dialled()
    ensures { OrdersAreDialled }
{}

/// How many bytes the text of calls has at most, and of how many a field is told.
pub fn constants()
    ensures most_text_bytes { MOST_TEXT_BYTES ≡ 16777216 }
    ensures most_told_bytes { MOST_TOLD_BYTES ≡ 40 }
{}

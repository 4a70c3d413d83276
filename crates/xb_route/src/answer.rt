// What an office does with the digits of a number.
ghost use Rattle.std.specs.Prelude.{◌≡◌};
ghost use Rattle.xb_model.specs.Numbers.{shortest_complete};
ghost use Rattle.xb_route.specs.Answers.{answer_to, left_over, sent_as};
ghost use Rattle.xb_route.specs.Pages.{AgreesWithPage};

use xb_model::{Digit, KeyDigits, NumberDigits, Order, Plan, Trunk, plan_len};
use xb_outgoing::OutgoingTable;

/// What an office does with digits that are dialled.
#[derive(Drop)]
pub enum Answer {
    /// They complete this number, which gets this order: it is keyed, or refused. Digits after it are not heard.
    Routed(NumberDigits, Order),
    /// They complete this number, of which these digits go out by dial pulses on this trunk group. Digits after it are
    /// not heard.
    Dialled(NumberDigits, Trunk, KeyDigits),
    /// They complete no number.
    Incomplete,
}

// The number that digits complete by a plan.
fn completed(plan: Plan, digits: &[Digit]) -> Option<NumberDigits>
    ensures { result ≡ shortest_complete plan digits.now }
{
    let len = usize::from(plan_len(plan, digits)?);
    if len <= digits.len() {
        NumberDigits::of(&digits[..len])
    } else {
        None
    }
}

// What is done with a number that gets an order.
fn sent_as(table: &OutgoingTable, number: NumberDigits, order: Order) -> Answer
    ensures { result ≡ sent_as table.now.pulsed number order }
{
    if !table.is_dialled(&order) {
        return Answer::Routed(number, order);
    }
    match order {
        Order::Key(trunk, sent) => Answer::Dialled(number, trunk, sent),
        order => Answer::Routed(number, order),
    }
}

/// What is done with digits by a table: the number that they complete by its plan is routed. The order of a number that
/// is keyed, or refused, is what the page says of a line that dials just this number. What goes out by dial pulses is
/// what the number's route keys where nothing is sent so, and that is a digit at least: where it is none, the number is
/// refused as an unknown one.
pub fn answer_to(table: &OutgoingTable, digits: &[Digit]) -> Answer
    ensures answer { result ≡ answer_to table.now digits.now }
    ensures page { AgreesWithPage table.now result }
{
    match completed(table.routes().plan(), digits) {
        Some(number) => {
            let order = table.order_of_number(&number);
            sent_as(table, number, order)
        }
        None => Answer::Incomplete,
    }
}

/// The digits after those of the number that they complete, which are not heard.
pub(crate) fn left_over<'a>(digits: &'a [Digit], number: &NumberDigits) -> &'a [Digit]
    ensures { result.now ≡ left_over digits.entry.now number.now }
{
    let heard = number.digits().len();
    if heard <= digits.len() {
        &digits[heard..]
    } else {
        &[]
    }
}

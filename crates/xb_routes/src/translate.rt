// The translation stage.
ghost use Rattle.std.specs.Prelude.{◌≡◌, ◌+◌, ◌≤◌, [], ◌∷◌, ◌++◌, drop, length, Option, option_copied, option_map};
ghost use Rattle.xb_model.specs.Routing.{CodedRoute, order_by, order_of};
ghost use Rattle.xb_model.specs.OnLines.{all_on};
ghost use Rattle.xb_routes.specs.Coded.{uncoded};
ghost use Rattle.xb_routes.specs.Machine.{GivesOrders};
ghost use Rattle.xb_model.specs.declared.digits.TheConstants.{KEY_DIGITS, NUMBER_DIGITS};

use crate::route::Route;
use crate::table::RouteTable;
use std::marker::Model;
use xb_model::{
    Dialled, Digit, KeyDigits, LineStage, NumberDigits, On, Order, PrefixDigits, Reason, send,
};

/// Gives each number its order, by a table; a refusal stays as it is.
#[derive(Drop)]
pub struct Translate<'t> {
    table: &'t RouteTable,
}

// Clauses see the table.
impl<'t> Model for Translate<'t> {
    ghost use Rattle.xb_routes.specs.Table.{Table};

    ghost Value = { Table };

    ghost view = { λ t. t.table.now };
}

impl<'t> Translate<'t> {
    /// The stage that orders by this table.
    pub fn new(table: &'t RouteTable) -> Translate<'t>
        ensures table { result ≡ table.now }
        ensures orders { GivesOrders table.now.routes (⟦<Translate<'t> as LineStage>⟧.machine result) }
    {
        Translate { table }
    }
}

// The digits after those that are there.
fn append(keyed: &mut KeyDigits, digits: &[Digit])
    requires { length keyed.old + length digits.now ≤ KEY_DIGITS }
    ensures { keyed.new ≡ keyed.old ++ digits.now }
{
    for digit in digits {
        keyed.push(*digit);
    }
}

/// The digits that are keyed: those of the prefix, then those of the number that are not deleted.
pub fn keyed(prefixed: &PrefixDigits, deleted: u8, digits: &[Digit]) -> KeyDigits
    requires { length digits.now ≤ NUMBER_DIGITS }
    ensures { result ≡ prefixed.now ++ drop deleted digits.now }
{
    let mut keyed = KeyDigits::new();
    append(&mut keyed, prefixed.digits());
    let deleted = usize::from(deleted);
    if deleted <= digits.len() {
        append(&mut keyed, &digits[deleted..]);
    }
    keyed
}

/// The order of a number, by its route; without one a refusal.
pub fn order_by(route: Option<&Route>, number: &NumberDigits) -> Order
    ensures { (found : Option CodedRoute) → option_copied route.entry ≡ option_map uncoded found →
        result ≡ order_by found number.now }
{
    let digits = number.digits();
    match route {
        None => Order::Refused(Reason::Unknown, digits.len() as u8),
        Some(route) => Order::Key(route.trunk, keyed(&route.prefixed, route.deleted, digits)),
    }
}

impl RouteTable {
    /// The order of what was dialled: that of the number, by its route. A refusal stays as it is.
    pub fn order_of(&self, dialled: &Dialled) -> Order
        ensures { result ≡ order_of self.now.routes dialled.now }
    {
        match dialled {
            Dialled::Number(number) => order_by(self.look(number.digits()), number),
            Dialled::Refused(reason, heard) => Order::Refused(*reason, *heard),
        }
    }
}

impl<'t> LineStage for Translate<'t> {
    ghost use Rattle.std.specs.Prelude.{[], ◌∷◌};
    ghost use Rattle.xb_model.specs.Routing.{order_of};
    ghost use Rattle.xb_model.specs.OnLines.{all_on};
    ghost use Rattle.xb_routes.specs.Machine.{machine};

    type In = On<Dialled>;

    type Out = On<Order>;

    type State = ();

    ghost machine = { λ stage. machine stage.routes };

    ghost on_line = { λ stage state item. all_on item.line (order_of stage.routes item.what ∷ []) };

    fn fresh(&self) {}

    fn step(&self, _state: &mut (), item: On<Dialled>, out: &mut Vec<On<Order>>) {
        send(item.line, out, self.table.order_of(&item.what));
    }
}

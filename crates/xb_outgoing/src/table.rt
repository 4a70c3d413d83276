// The table with the trunk groups that take dial pulses.
ghost use Rattle.std.specs.Prelude.{◌≡◌, ◌≢◌, ◌≤◌, IfErr, IfOk, Ok, Err, Some, None, codes};
ghost use Rattle.toml.specs.Data.{get_member};
ghost use Rattle.toml.specs.View.{items_view, table_view};
ghost use Rattle.xb_outgoing.specs.declared.fault.OutgoingFault.TheVariants.{NoMemory, Routes};
ghost use Rattle.xb_outgoing.specs.Groups.{has_group, items_at};
ghost use Rattle.xb_outgoing.specs.Tables.{is_dialled, outgoing_of_text, outgoing_order, outgoing_routed, refused_without_digits};
ghost use Rattle.xb_routes.specs.declared.fault.RouteFault.TheVariants.{NotToml};
ghost use Rattle.xb_routes.specs.Text.{tree_of};

use crate::fault::OutgoingFault;
use crate::groups::{groups_of, has_group};
use crate::keys::value_at;
use std::alloc::Global;
use std::marker::Model;
use toml::{Table, Value};
use xb_model::{Dialled, NumberDigits, Order, Reason, Trunk};
use xb_routes::{RouteFault, RouteTable, order_by};

/// A route table, and the trunk groups that take dial pulses. Clauses see these two.
#[derive(Drop)]
pub struct OutgoingTable {
    table: RouteTable,
    pulsed: Vec<Trunk>,
}

impl Model for OutgoingTable {
    ghost use Rattle.xb_outgoing.specs.Tables.{Outgoing, outgoing};

    ghost Value = { Outgoing };

    ghost view = { λ t. outgoing t.table t.pulsed.items };
}

// The tree that a text writes.
fn tree_of(alloc: Global, text: &[u8]) -> Result<Table, OutgoingFault>
    ensures ok { IfOk result (λ tree. tree_of text.now ≡ Some (table_view tree)) }
    ensures refused { IfErr result (λ f. f ≢ NoMemory →
        (f ≡ Routes NotToml) × (tree_of text.now ≡ None)) }
{
    match toml::table_from_slice(alloc, text) {
        Ok(tree) => Ok(tree),
        Err(e) if e.is_memory() => Err(OutgoingFault::NoMemory),
        Err(_) => Err(OutgoingFault::Routes(RouteFault::NotToml)),
    }
}

// The items of the key `route`: none where it is missing.
fn items_of(tree: &Table) -> &[Value]
    ensures { items_view result.now ≡ items_at (get_member (codes "route") (table_view tree.now)) }
{
    let Some(value) = value_at(tree, "route") else {
        return &[];
    };
    match value.as_array() {
        Some(values) => values.as_slice(),
        None => &[],
    }
}

impl OutgoingTable {
    /// The table that a text writes, as `RouteTable::read` reads it, whose routes may have the key `send` too: the text
    /// `dp` says that calls are sent by dial pulses. Two routes of one trunk group do not differ in it.
    ///
    /// `Err` has the first refusal in the order of `OutgoingFault`; `Err(OutgoingFault::NoMemory)` comes where memory
    /// ran out, before any later check.
    pub fn of_text(alloc: Global, text: &[u8]) -> Result<OutgoingTable, OutgoingFault>
        ensures ok { IfOk result (λ t. outgoing_of_text text.now ≡ Ok t) }
        ensures refused { IfErr result (λ f. f ≢ NoMemory → outgoing_of_text text.now ≡ Err f) }
    {
        let table = RouteTable::read(alloc, text)?;
        let tree = tree_of(alloc, text)?;
        let groups = groups_of(alloc, table.entries(), items_of(&tree))?;
        Ok(OutgoingTable {
            table,
            pulsed: groups.pulsed,
        })
    }

    /// The route table.
    pub fn routes(&self) -> &RouteTable
        ensures { result.now ≡ self.now.table }
    {
        &self.table
    }

    /// Whether a trunk group takes dial pulses.
    pub fn takes_pulses(&self, trunk: Trunk) -> bool
        ensures { result ≡ has_group self.now.pulsed trunk }
    {
        has_group(&self.pulsed, trunk)
    }

    /// Whether an order goes out by dial pulses: it is not refused, and its trunk group takes them.
    pub fn is_dialled(&self, order: &Order) -> bool
        ensures { result ≡ is_dialled self.now.pulsed order.now }
    {
        match order {
            Order::Key(trunk, _) => self.takes_pulses(*trunk),
            Order::Refused(..) => false,
        }
    }
    // An order, or the refusal of a call of no digits to a trunk group that takes dial pulses.
    fn refused_without_digits(&self, heard: u8, order: Order) -> Order
        ensures { result ≡ refused_without_digits self.now.pulsed heard order }
    {
        match order {
            Order::Key(trunk, sent) => {
                if sent.digits().is_empty() && self.takes_pulses(trunk) {
                    Order::Refused(Reason::Unknown, heard)
                } else {
                    Order::Key(trunk, sent)
                }
            }
            order => order,
        }
    }

    /// The order of a number: that of its route. But to a trunk group that takes dial pulses a call of no digits is
    /// refused as an unknown number: it makes no pulse, and so the next office hears no number.
    pub fn order_of_number(&self, number: &NumberDigits) -> Order
        ensures { result ≡ outgoing_routed self.now number.now }
    {
        let digits = number.digits();
        let order = order_by(self.table.look(digits), number);
        self.refused_without_digits(digits.len() as u8, order)
    }

    /// The order of what was dialled: that of the number. A refusal stays as it is.
    pub fn order_of(&self, outcome: &Dialled) -> Order
        ensures { result ≡ outgoing_order self.now outcome.now }
    {
        match outcome {
            Dialled::Number(number) => self.order_of_number(number),
            Dialled::Refused(reason, heard) => Order::Refused(*reason, *heard),
        }
    }
}

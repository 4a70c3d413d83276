//! Laws of these tables: functions that do nothing, each with a theorem as its contract.
ghost use Rattle.xb_outgoing.specs.Tables.{TablesWithoutSend};
ghost use Rattle.xb_outgoing.specs.Worked.{GivesOrders, ReadsTables};

/// A table none of whose routes has `send` is taken just where it is a route table, and no trunk group takes dial
/// pulses.
#[tactic(auto, using(crate::proofs::WithoutSend::tables_without_send))]
pub fn tables_without_send()
    ensures { TablesWithoutSend }
{}

/// What the definitions give at worked tables.
pub fn worked_tables()
    ensures { ReadsTables }
{}

/// The orders that a worked table gives.
pub fn worked_orders()
    ensures { GivesOrders }
{}

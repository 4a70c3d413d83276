//! The route table of an office that sends some calls on by dial pulses, as the programs read it that stand for such an
//! office. Each route may have the key `send`: `dp` sends its calls on as makes and breaks of a loop. Without the key
//! they are keyed in MF. How calls are sent is one of the trunk group.
//!
//! - `OutgoingTable::of_text`: an accepted text has exactly this table, and these trunk groups take dial pulses; a
//!   refusal, unless memory ran out, is that of `RouteTable::read`, or else the first wrong `send`
//!   (`outgoing_of_text`). `laws::worked_tables` has tables and refusals.
//! - `laws::tables_without_send`: of a table without `send` no trunk group takes dial pulses, and it is refused only
//!   where the table is.
//! - `read_table`: the same of a file, or of standard input. A fault of the file names it.
//! - `OutgoingTable::takes_pulses`, `is_dialled`: whether a trunk group takes dial pulses, and whether an order goes
//!   out so.
//! - `OutgoingTable::order_of`, `order_of_number`: the order of the route table, but that a call of no digits to a
//!   trunk group that takes dial pulses is refused as an unknown number (`outgoing_order`, `laws::worked_orders`).
//!
//! What is said of a file is said of the bytes that the caller's `Files` says to be known.
#![tactic(auto)]

mod fault;
mod groups;
mod keys;
pub mod laws;
mod reading;
mod table;

pub use fault::{OutgoingFault, TableFault};
pub use reading::read_table;
pub use table::OutgoingTable;

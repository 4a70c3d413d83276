//! The chain on lines whose states the caller keeps in its own memory, as plain values. The route table, what
//! is known of each line, rows and marks are structs of numbers, as C lays them out. Any bytes in them have a
//! meaning, so nothing that a caller writes there is undefined. No call but `open` takes memory.
//!
//! - `open`: the table holds what a text writes. `begin` and `add`: it holds what the values of a plan, of
//!   limits and of routes write, in the words of the text's definition (`laws::fills_as_a_text`). Otherwise
//!   the fault is the first one, and the table is as it was.
//! - `take`: the marks of a row, one whole entry or none, and what is known of the line after it. `signals`:
//!   what a row tells the register. On a refusal nothing has changed.
//! - `hear`: what a caller hears on a line by itself, as a digit, in place of its rows.
//!   `laws::entrances_agree`: the signals of a record, and its close, give its tape. `dialled`: the digits so
//!   far of an attempt that goes on.
//! - `deciding`: the longest code of the table that the digits of a number begin with.
//! - `route_number`: the marks of the number that digits complete, by its route: what the chain makes of it.
//! - `print_entry`: the line of the page of these marks (`entry_text`). `laws::prints_the_tape`: printed in
//!   the row that gives it, by the line's count of entries, each is the next line of the tape.
//! - `laws::keeps_promises`: the marks of a line are those of a live office, nothing taken back or missing.
//! - `order_of`, `put_marks`, `digits_of` and `put_digits` are shared with what is sent on (`xb_onward`).
//! - `take_by_status`, and `refusal_status`, `fault_status` and the others: the answers to callers of other
//!   languages, one list of numbers for all.
#![tactic(auto)]

mod calls;
mod digits;
mod entry;
mod filling;
mod heard_signal;
mod keying;
mod lamps;
pub mod laws;
mod line;
mod line_hearing;
mod mark;
mod not_heard;
mod number;
mod printing;
mod reading;
mod refusal;
mod route;
mod row;
mod row_signals;
mod search;
mod status;
mod table;
mod taking;

pub use calls::take_by_status;
pub use digits::{digits_of, put_digits};
pub use filling::{add, begin};
pub use heard_signal::HeardSignal;
pub use keying::order_of;
pub use lamps::dialled;
pub use line::{PlainLine, PulsePart, RegisterPart};
pub use line_hearing::hear;
pub use mark::{PlainMark, put_marks};
pub use not_heard::NotHeard;
pub use number::{NotRouted, route_number};
pub use printing::{PrintFault, print_entry};
pub use reading::open;
pub use refusal::Refusal;
pub use route::PlainRoute;
pub use row::PlainRow;
pub use row_signals::{PlainSignal, signals, train_elements};
pub use search::deciding;
pub use status::{
    DONE, fault_place, fault_status, not_heard_status, not_routed_status, print_status,
    refusal_status,
};
pub use table::PlainTable;
pub use taking::take;

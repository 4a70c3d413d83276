// The marks by which the number of a keying goes on.
ghost use Rattle.std.specs.Prelude.{◌≡◌, ◌≤◌, ◌<◌, ◌↔◌, IfErr, IfOk, IfSome, IsSome, List, OnErr, length, map, take};
ghost use Rattle.xb_model.specs.declared.stage.TheConstants.{MOST_OUTPUTS};
ghost use Rattle.xb_model.specs.Keyings.{marks_of};
ghost use Rattle.xb_model.specs.Routing.{CodedRoute, order_of};
ghost use Rattle.xb_structs.specs.Marks.{mark_on};
ghost use Rattle.xb_structs.specs.Routes.{AreRoutes};
ghost use Rattle.xb_structs.specs.Tables.{IsOpen};
ghost use Rattle.xb_onward.specs.Sending.{IsNotSent, Sends};
ghost use Rattle.xb_onward.specs.declared.sending.NotSent.TheVariants.{Room};

use crate::outcome::{PlainOutcome, dialled_of};
use xb_model::{Dialled, LineNo};
use xb_sender::marks_of;
use xb_structs::{PlainMark, PlainRoute, PlainTable, deciding, order_of, put_marks};

/// Why an outcome gives no marks. The first in this order is returned.
#[derive(Clone, Copy, Debug, PartialEq, Eq)]
pub enum NotSent {
    /// The table is none that was opened: its plan, its limits or the count of its routes is none.
    NotOpened,
    /// There are more marks than there is room for. Room for 24 is always enough.
    Room,
}

// The routes of a table; `None` where it is none that was opened.
fn routes_of(table: &PlainTable) -> Option<&[PlainRoute]>
    ensures variant { IsSome result ↔ IsOpen table.now }
    ensures value { IfSome result (λ routes. routes.now ≡ take table.now.count table.now.routes) }
{
    match deciding(table, &[]) {
        Ok(_) => table.routes.get(..table.count as usize),
        Err(_) => None,
    }
}

// The marks of an outcome by these routes.
fn put_order(
    routes: &[PlainRoute],
    dialled: &Dialled,
    room: &mut [PlainMark],
) -> Result<usize, NotSent>
    ensures marks { IfOk result (λ count. (all : List CodedRoute) → AreRoutes routes.now all →
        take count room.new ≡ map (mark_on 0) (marks_of (order_of all dialled.now))) }
    ensures few { IfOk result (λ count. count ≤ length room.new) }
    ensures refused { IfErr result (λ why. (why ≡ Room) × (length room.old < MOST_OUTPUTS)
        × ((all : List CodedRoute) → AreRoutes routes.now all →
        length room.old < length (marks_of (order_of all dialled.now)))) }
    ensures kept { OnErr result (room.new ≡ room.old) }
{
    let marks = marks_of(&order_of(routes, dialled));
    if marks.len() > room.len() {
        return Err(NotSent::Room);
    }
    put_marks(LineNo::default(), &marks, room);
    Ok(marks.len())
}

/// The marks of an outcome, by a table: the keying of its number by the longest code that the number begins with, or
/// one refusal. They are the first of the room, as many as the result says, on line 0. On an `Err` the room is as it
/// was.
pub fn send_on(
    table: &PlainTable,
    outcome: &PlainOutcome,
    room: &mut [PlainMark],
) -> Result<usize, NotSent>
    ensures sends { IfOk result (λ count. Sends table.now outcome.now room.new count) }
    ensures few { IfOk result (λ count. count ≤ length room.new) }
    ensures refused { IfErr result (λ why. IsNotSent why table.now outcome.now (length room.old)) }
    ensures kept { OnErr result (room.new ≡ room.old) }
{
    let Some(routes) = routes_of(table) else {
        return Err(NotSent::NotOpened);
    };
    put_order(routes, &dialled_of(outcome), room)
}

// What an outcome gives a line.
ghost use Rattle.std.specs.Prelude.{◌≡◌, ◌<◌, ◌≤◌, List, IfOk, IfErr, OnErr, length};
ghost use Rattle.std.specs.Option.{option_to_list};
ghost use Rattle.xb_model.specs.declared.stage.TheConstants.{MOST_OUTPUTS};
ghost use Rattle.xb_model.specs.Routing.{CodedRoute};
ghost use Rattle.xb_structs.specs.Giving.{Gives, marks_of_outcomes};
ghost use Rattle.xb_structs.specs.Routes.{AreRoutes};

use crate::keying::order_of;
use crate::line::PlainLine;
use crate::mark::{PlainMark, put_marks};
use crate::route::PlainRoute;
use xb_model::{Dialled, LineNo};
use xb_sender::marks_of;

/// There are more marks than there is room for.
#[derive(Clone, Copy)]
pub(crate) struct NoRoom;

/// Gives the marks of an outcome, if there is one, and leaves the line as it is heard, with one entry more for
/// an outcome. On an `Err` the line and the room are as they were.
pub(crate) fn give(
    routes: &[PlainRoute],
    number: LineNo,
    outcome: Option<Dialled>,
    heard: PlainLine,
    line: &mut PlainLine,
    room: &mut [PlainMark],
) -> Result<usize, NoRoom>
    ensures gives { IfOk result (λ count. (all : List CodedRoute) → AreRoutes routes.now all →
        Gives all number (option_to_list outcome) heard line.new room.new count) }
    ensures few { IfOk result (λ count. count ≤ length room.new) }
    ensures enough { IfErr result (λ _. length room.old < MOST_OUTPUTS) }
    ensures refused { IfErr result (λ _. (all : List CodedRoute) → AreRoutes routes.now all →
        length room.old < length (marks_of_outcomes all (option_to_list outcome))) }
    ensures kept { OnErr result ((line.new ≡ line.old) × (room.new ≡ room.old)) }
{
    let mut after = heard;
    let mut count = 0;
    if let Some(dialled) = outcome {
        let marks = marks_of(&order_of(routes, &dialled));
        if marks.len() > room.len() {
            return Err(NoRoom);
        }
        put_marks(number, &marks, room);
        count = marks.len();
        after.entries = after.entries.saturating_add(1);
    }
    *line = after;
    Ok(count)
}

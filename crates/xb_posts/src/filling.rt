// The rows that a feed takes ahead.
ghost use Rattle.std.specs.Prelude.{◌≡◌, ◌≤◌, Ok, false, vec_len, vec_capacity};
ghost use Rattle.xb_posts.specs.Feeds.{AreRows};
ghost use Rattle.xb_posts.specs.Fillings.{Fills};

use xb_closes::LineUses;
use xb_flow::Flow;
use xb_model::{Row, RowFault, RowSource};

/// The most rows that a feed holds, and sends by one push.
pub const AHEAD: usize = 16;

// Takes rows from the source until it holds `AHEAD` of them or the source stops: whether it ended.
pub(crate) fn fill<S: RowSource>(
    source: &mut S,
    held: &mut Vec<Flow<Row>>,
    uses: &mut LineUses,
) -> Result<bool, RowFault>
    requires room { AHEAD ≤ vec_capacity held.old }
    requires few { vec_len held.old ≤ AHEAD }
    requires rows { AreRows held.old.items }
    ensures room { AHEAD ≤ vec_capacity held.new }
    ensures few { vec_len held.new ≤ AHEAD }
    ensures rows { AreRows held.new.items }
    ensures fills { Fills (S.rest source.old) held.old.items uses.old
        result (S.rest source.new) held.new.items uses.new }
    ensures full { result ≡ Ok false → vec_len held.new ≡ AHEAD }
{
    while held.len() < AHEAD {
        match source.next_row() {
            Ok(Some(row)) => {
                if uses.hears(row) {
                    held.push_reserved(Flow::Item(row));
                }
            }
            Ok(None) => return Ok(true),
            Err(fault) => return Err(fault),
        }
    }
    Ok(false)
}

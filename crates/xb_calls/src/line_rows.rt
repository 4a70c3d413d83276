// The rows of each line, and both orders of them.
ghost use Rattle.std.specs.Prelude.{◌≡◌, ◌<◌, ◌++◌, [], ◌≢◌, map, OnOk, IfOk, length, sum_by};
ghost use Rattle.std.specs.List.{flat_map};
ghost use Rattle.xb_model.specs.declared.line.TheConstants.{LINES};
ghost use Rattle.xb_calls.specs.Calls.{AreCalls};
ghost use Rattle.xb_calls.specs.Dialling.{dialled, in_order, in_turn, joined_lists, rows_by_line};
ghost use Rattle.xb_calls.specs.Heard.{AreDialled, IsHeard};
ghost use Rattle.xb_calls.specs.LineRows.{Takes, MayStand, lists_of};
ghost use Rattle.xb_calls.specs.Speeds.{FitsSome};

use crate::call::Call;
use crate::dialled_pulses::push_next_call;
use crate::order::RowOrder;
use crate::speed::Speed;
use std::alloc::{AllocError, Global};
use xb_model::{PerLine, Row};

// The rows of each line.
fn rows_by_line(
    alloc: Global,
    calls: &[Call],
    speed: Speed,
) -> Result<PerLine<Vec<Row>>, AllocError>
    requires { MayStand speed }
    ensures rows { IfOk result (λ lines. map (λ rows. rows.items) lines ≡ rows_by_line speed calls.now) }
    ensures calls { OnOk result (AreCalls calls.now) }
{
    let mut lines = PerLine::from_fn(alloc, || Vec::new(alloc))?;
    for call in calls {
        push_next_call(lines.get_mut(call.line()), speed, call)?;
    }
    Ok(lines)
}

/// The lists of rows that lines have, the lines ascending.
pub fn lists_of(alloc: Global, lines: &PerLine<Vec<Row>>) -> Result<Vec<&[Row]>, AllocError>
    ensures { IfOk result (λ lists. lists_of lists.items ≡ map (λ rows. rows.items) lines.now) }
{
    let mut lists = Vec::new(alloc);
    for (_line, rows) in lines.iter() {
        lists.push(rows.as_slice())?;
    }
    Ok(lists)
}

// The rows of lists, one list after the other.
fn joined(alloc: Global, lists: &[&[Row]]) -> Result<Vec<Row>, AllocError>
    ensures { IfOk result (λ rows. rows.items ≡ joined_lists (lists_of lists.now)) }
{
    let mut rows = Vec::new(alloc);
    for list in lists {
        rows.extend_from_slice(list)?;
    }
    Ok(rows)
}

// Puts the first row of each list after the rows; what is left of the lists, without empty ones.
fn take_round<'a>(
    alloc: Global,
    rows: &mut Vec<Row>,
    lists: &[&'a [Row]],
) -> Result<Vec<&'a [Row]>, AllocError>
    ensures { let given = lists_of lists.now in
        IfOk result (λ left. Takes given rows.old.items rows.new.items (lists_of left.items)) }
{
    let mut left = Vec::new(alloc);
    for list in lists {
        if let Some((first, rest)) = list.split_first() {
            rows.push(*first)?;
            if !rest.is_empty() {
                left.push(rest)?;
            }
        }
    }
    Ok(left)
}

// The rows of lists, one of each in turn.
fn in_turn(alloc: Global, lists: Vec<&[Row]>) -> Result<Vec<Row>, AllocError>
    ensures { IfOk result (λ rows. rows.items ≡ in_turn (lists_of lists.entry.items)) }
{
    let mut rows = Vec::new(alloc);
    let mut left = lists;
    while !left.is_empty() {
        left = take_round(alloc, &mut rows, &left)?;
    }
    Ok(rows)
}

/// The rows of lists, in an order.
pub fn in_order(alloc: Global, lists: Vec<&[Row]>, order: RowOrder) -> Result<Vec<Row>, AllocError>
    ensures { IfOk result (λ rows. rows.items ≡ in_order order (lists_of lists.entry.items)) }
{
    match order {
        RowOrder::ByLine => joined(alloc, &lists),
        RowOrder::InTurn => in_turn(alloc, lists),
    }
}

/// The loop rows that dial calls, in an order of the lines. On each line a make seizes, each digit
/// is its breaks and makes with a pause after them, and between two calls a break hangs up. `Err`
/// says that memory ran out.
///
/// The speed fits lawful limits, as `Speed::fits` tells. By all such limits and every plan by which
/// the numbers are complete, exactly these numbers are heard on each line, in the order dialled.
pub fn rows_of_calls(
    alloc: Global,
    calls: &[Call],
    speed: Speed,
    order: RowOrder,
) -> Result<Vec<Row>, AllocError>
    requires fits { FitsSome speed }
    ensures rows { IfOk result (λ rows. rows.items ≡ dialled order speed calls.now) }
    ensures lines { IfOk result (λ rows. AreDialled speed calls.now rows.items) }
    ensures heard { IfOk result (λ rows. IsHeard speed calls.now rows.items) }
{
    let lines = rows_by_line(alloc, calls, speed)?;
    let lists = lists_of(alloc, &lines)?;
    in_order(alloc, lists, order)
}

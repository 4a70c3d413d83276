// Both calls by schedules: the second sender would send the refusal.
use crate::bank::schedule::round_of;
use crate::bank::two_calls::{are_both, line, rows, table};
use std::alloc::{AllocError, Global};
use std::test::Fail;
use test_kit::marks::operator_marks;
use xb_ring::Post;
use xb_together::{SoFar, marks_by_schedule};

// So many rounds of each post but the second sender, and then as many in which this one has its turn too,
// if it may have one.
fn rounds(alloc: Global, may_send: bool) -> Result<Vec<Post>, AllocError> {
    let round_of_others = round_of(alloc, 1)?;
    let mut schedule = Vec::new(alloc);
    for round in 0..400 {
        if may_send && round >= 200 {
            schedule.push(Post::Send(1))?;
        }
        schedule.extend_from_slice(&round_of_others)?;
    }
    Ok(schedule)
}

fn played(alloc: Global, may_send: bool) -> Result<SoFar, Fail> {
    let schedule = rounds(alloc, may_send)?;
    Ok(marks_by_schedule(alloc, &table(alloc)?, &rows(alloc)?, line()?, &schedule)?)
}

#[test]
fn second_call_waits_for_its_sender(rt: HostRuntime) -> Result<(), Fail> {
    let keyed = operator_marks()?;
    let held = played(rt.alloc(), false)?;
    assert!(rt; held.marks.as_slice() == keyed.as_slice());
    assert!(rt; !held.ended);
    let whole = played(rt.alloc(), true)?;
    assert!(rt; are_both(&whole.marks)?);
    assert!(rt; whole.ended);
    Ok(())
}

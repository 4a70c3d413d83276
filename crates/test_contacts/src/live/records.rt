// Lines that are closed, and begun anew.
use crate::live::rows::{take_and_give, take_in_silence, usual_office};
use std::alloc::Global;
use std::process::Abort;
use std::test::Fail;
use test_kit::marks::operator_marks;
use xb_model::{LineNo, Mark, Reason};
use xb_serial::Live;

// After its close a line hears nothing, until it is reopened.
fn check_closed(rt: &impl Abort, alloc: Global, live: &mut Live) -> Result<(), Fail> {
    take_in_silence(rt, alloc, live, 7, "C M500 #0 B400 C")?;
    live.reopen(LineNo::new(7).ok_or("a line")?);
    take_in_silence(rt, alloc, live, 7, "M500 *10/100")?;
    take_and_give(rt, alloc, live, 7, "M80", &operator_marks()?)
}

// A line that is reopened in the middle of a call forgets it, and no other line does.
fn check_forgotten(rt: &impl Abort, alloc: Global, live: &mut Live) -> Result<(), Fail> {
    take_in_silence(rt, alloc, live, 8, "M500 #4")?;
    take_in_silence(rt, alloc, live, 9, "M500 #4")?;
    live.reopen(LineNo::new(8).ok_or("a line")?);
    let refused = [Mark::Refused(Reason::Abandoned, 1)];
    take_and_give(rt, alloc, live, 9, "C", &refused)?;
    take_in_silence(rt, alloc, live, 8, "C")
}

#[test]
fn a_line_is_reopened(rt: HostRuntime) -> Result<(), Fail> {
    let mut live = usual_office(rt.alloc())?;
    check_closed(&rt, rt.alloc(), &mut live)?;
    check_forgotten(&rt, rt.alloc(), &mut live)
}

// Both calls of the line: one of them alone, what is heard of them, and both on threads.
use crate::bank::two_calls::{ABANDONED, are_both, line, rows, table};
use std::alloc::Global;
use std::process::Abort;
use std::sync::Wait;
use std::test::Fail;
use std::thread::Threads;
use std::time::Clock;
use test_kit::marks::operator_marks;
use xb_model::{Limits, Mark, Signal};
use xb_together::{hear, marks_of_call, marks_on_threads};

// What is heard.
const SIGNALS: [Signal; 4] = [
    Signal::Seize,
    Signal::Digit(10, false),
    Signal::Release,
    Signal::Seize,
];

// Call `n` has these marks; `None` where there is no such call.
fn check_call(
    rt: &impl Abort,
    alloc: Global,
    n: usize,
    wanted: Option<&[Mark]>,
) -> Result<(), Fail> {
    let marks = marks_of_call(alloc, &table(alloc)?, &rows(alloc)?, line()?, n)?;
    assert!(rt;
        marks.as_ref().map(|marks| marks.as_slice()) == wanted,
        "call {n}"
    );
    Ok(())
}

// The signals are heard in order.
fn check_heard(rt: &impl Abort, alloc: Global) -> Result<(), Fail> {
    let line = line()?;
    let heard = hear(alloc, Limits::standard(), &rows(alloc)?)?;
    assert!(rt; heard.iter().all(|signal| signal.line == line));
    assert!(rt; heard.len() == SIGNALS.len());
    assert!(rt;
        heard
            .iter()
            .zip(&SIGNALS)
            .all(|(got, wanted)| got.what == *wanted)
    );
    Ok(())
}

// On threads both calls have their marks.
fn check_threads<R: Threads + Wait + Clock + Abort + Sync>(
    rt: &R,
    alloc: Global,
) -> Result<(), Fail> {
    let marks = marks_on_threads(rt, alloc, &table(alloc)?, &rows(alloc)?, line()?);
    let marks = marks.ok().ok_or("no tapes")?;
    assert!(rt; are_both(&marks)?);
    Ok(())
}

#[test]
fn two_calls(rt: HostRuntime) -> Result<(), Fail> {
    let keyed = operator_marks()?;
    check_call(&rt, rt.alloc(), 0, Some(&keyed))?;
    check_call(&rt, rt.alloc(), 1, Some(&[ABANDONED]))?;
    check_call(&rt, rt.alloc(), 2, None)?;
    check_heard(&rt, rt.alloc())?;
    check_threads(&rt, rt.alloc())
}

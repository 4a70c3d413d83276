// Tapes by hand.
use std::alloc::{AllocError, Global};
use std::process::Abort;
use std::test::Fail;
use test_kit::marks::{operator_marks, unended};
use xb_model::{LineNo, Mark, On, Reason};
use xb_tape::Tapes;

pub(crate) fn line(rt: &impl Abort, number: u16) -> LineNo {
    LineNo::new(number).expect(rt, "a line")
}

// Puts marks on the tape of a line.
pub(crate) fn put(tapes: &mut Tapes, line: LineNo, marks: &[Mark]) -> Result<(), AllocError> {
    for mark in marks {
        tapes.push(On { line, what: *mark })?;
    }
    Ok(())
}

// A keyed call, a refusal, and the beginning of a keyed call on the tape of one line.
fn assert_entries(rt: &impl Abort, tapes: &Tapes, line: LineNo) -> Result<(), Fail> {
    assert_eq!(rt; tapes.marks(line).len(), 7);
    assert_eq!(rt; tapes.entries(line), 2);
    let keyed = operator_marks()?;
    assert!(rt; tapes.entry(line, 0) == Some(&keyed), "the keyed call");
    let refused = [Mark::Refused(Reason::Mutilated, 1)];
    assert!(rt; tapes.entry(line, 1) == Some(&refused), "the refusal");
    assert!(rt; tapes.entry(line, 2).is_none());
    Ok(())
}

// Puts these on the tape.
fn put_entries(alloc: Global, tapes: &mut Tapes, line: LineNo) -> Result<(), Fail> {
    put(tapes, line, &operator_marks()?)?;
    put(tapes, line, &[Mark::Refused(Reason::Mutilated, 1)])?;
    put(tapes, line, &unended(alloc, 3, &[])?)?;
    Ok(())
}

#[test]
fn tapes_of_one_line_and_of_all(rt: HostRuntime) -> Result<(), Fail> {
    let (first, last) = (line(&rt, 0), line(&rt, 9_999));
    let mut tapes = Tapes::new(rt.alloc())?;
    put_entries(rt.alloc(), &mut tapes, last)?;
    assert_entries(&rt, &tapes, last)?;
    assert!(rt; tapes.marks(first).is_empty());
    assert_eq!(rt; tapes.entries(first), 0);
    let keyed = operator_marks()?;
    let mut tapes = Tapes::new(rt.alloc())?;
    put(&mut tapes, last, &keyed)?;
    assert_lines(&rt, &tapes, &keyed);
    Ok(())
}

// The tapes of all lines, ascending, of which only the last has marks.
fn assert_lines(rt: &impl Abort, tapes: &Tapes, last: &[Mark]) {
    let mut lines = 0;
    for (number, marks) in tapes.lines() {
        assert_eq!(rt; number.get(), lines);
        assert!(rt;
            marks == if lines == 9_999 { last } else { &[] },
            "line {lines}"
        );
        lines += 1;
    }
    assert_eq!(rt; lines, 10_000);
}

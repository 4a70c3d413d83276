// Turns of a tape station.
use std::process::Abort;
use std::test::Fail;
use xb_model::{LineNo, Mark, On, Reason};
use xb_posts::TapeStation;
use xb_ring::{Flow, NoGate, Turn, link};

// The mark of a refusal after so many digits.
fn refusal(heard: u8) -> Mark {
    Mark::Refused(Reason::Abandoned, heard)
}

// A turn of the station moves.
fn moves(rt: &impl Abort, tape: &mut TapeStation) {
    assert_eq!(rt; tape.turn(), Ok(Turn::Moved));
}

#[test]
fn each_line_has_its_marks(rt: HostRuntime) -> Result<(), Fail> {
    let five = LineNo::new(5).ok_or("a line")?;
    let six = LineNo::new(6).ok_or("a line")?;
    let (mut marks, ring) = link(rt.alloc(), 8)?;
    let mut tape = TapeStation::new(rt.alloc(), ring)?;
    assert_eq!(rt; tape.turn(), Ok(Turn::Idle));
    for (line, heard) in [(five, 1), (six, 2), (five, 3)] {
        let what = refusal(heard);
        assert!(rt;
            marks.push(Flow::Item(On { line, what })).is_ok(),
            "room for a mark"
        );
    }
    moves(&rt, &mut tape);
    moves(&rt, &mut tape);
    assert_eq!(rt; tape.marks(five), [refusal(1)].as_slice());
    assert_eq!(rt; tape.marks(six), [refusal(2)].as_slice());
    assert!(rt; marks.push(Flow::End).is_ok(), "room for the End");
    assert!(rt; !tape.has_ended());
    assert!(rt; tape.serve(&rt, &NoGate).is_ok());
    assert!(rt; tape.has_ended());
    let (_ring, tapes) = tape.into_parts();
    assert_eq!(rt; tapes.marks(five), [refusal(1), refusal(3)].as_slice());
    Ok(())
}

// The End alone: nothing stands on any line, and a station that has ended serves no more.
#[test]
fn empty_tape(rt: HostRuntime) -> Result<(), Fail> {
    let (mut marks, ring) = link(rt.alloc(), 1)?;
    assert!(rt; marks.push(Flow::End).is_ok(), "room for the End");
    let mut tape = TapeStation::new(rt.alloc(), ring)?;
    moves(&rt, &mut tape);
    assert_eq!(rt; tape.turn(), Ok(Turn::Ended));
    assert!(rt; tape.serve(&rt, &NoGate).is_ok());
    let (_ring, tapes) = tape.into_parts();
    for number in 0..10_000 {
        let line = LineNo::new(number).ok_or("a line")?;
        assert!(rt; tapes.marks(line).is_empty(), "line {number}");
    }
    Ok(())
}

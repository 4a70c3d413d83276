// The operator is dialled, signal by signal.
use crate::live::structs::{is_same, mark, opened};
use std::process::Abort;
use std::test::Fail;
use xb_structs::{HeardSignal, NotHeard, PlainLine, PlainMark, PlainTable, dialled, hear};

// What line 7 gives for what was heard on it.
fn hear_on_seven(
    table: &PlainTable,
    line: &mut PlainLine,
    heard: HeardSignal,
    room: &mut [PlainMark],
) -> Result<usize, NotHeard> {
    hear(table, line, 7, heard, room)
}

// Hears this on line 7, which gives so many marks.
fn gives(
    rt: &impl Abort,
    table: &PlainTable,
    line: &mut PlainLine,
    heard: HeardSignal,
    room: &mut [PlainMark],
    count: usize,
) {
    assert_eq!(rt; hear_on_seven(table, line, heard, room).ok(), Some(count));
}

// What is refused on a line that is not seized.
fn is_not_seized(
    rt: &impl Abort,
    table: &PlainTable,
    line: &mut PlainLine,
    room: &mut [PlainMark],
) {
    assert!(rt;
        matches!(
            hear_on_seven(table, line, HeardSignal::Digit(0), room),
            Err(NotHeard::NotSeized)
        )
    );
    assert!(rt;
        matches!(
            hear_on_seven(table, line, HeardSignal::TimeOut, room),
            Err(NotHeard::NotSeized)
        )
    );
    assert!(rt;
        matches!(
            hear_on_seven(table, line, HeardSignal::Release, room),
            Err(NotHeard::NotSeized)
        )
    );
}

#[test]
fn keyed_by_its_last_digit(rt: HostRuntime) -> Result<(), Fail> {
    let table = opened(rt.alloc())?;
    let mut line = PlainLine::new();
    let mut room = [mark(9, 9, 9, 9); 24];
    is_not_seized(&rt, &table, &mut line, &mut room);
    gives(&rt, &table, &mut line, HeardSignal::Seizure, &mut room, 0);
    gives(&rt, &table, &mut line, HeardSignal::Digit(0), &mut room, 4);
    assert_eq!(rt; line.entries, 1);
    let keyed = [
        mark(0, 1, 0, 0),
        mark(2, 0, 1100, 1700),
        mark(1, 0, 1300, 1500),
        mark(3, 0, 1500, 1700),
    ];
    for i in 0..4 {
        assert!(rt; is_same(&room[i], &keyed[i]));
    }
    Ok(())
}

#[test]
fn refused_with_its_good_digits(rt: HostRuntime) -> Result<(), Fail> {
    let table = opened(rt.alloc())?;
    let mut line = PlainLine::new();
    let mut room = [mark(9, 9, 9, 9); 24];
    let mut digits = [9; 10];
    gives(&rt, &table, &mut line, HeardSignal::Seizure, &mut room, 0);
    gives(&rt, &table, &mut line, HeardSignal::Digit(2), &mut room, 0);
    gives(&rt, &table, &mut line, HeardSignal::Digit(3), &mut room, 0);
    assert_eq!(rt; dialled(&line, &mut digits), 2);
    assert_eq!(rt; digits[0], 2);
    assert_eq!(rt; digits[1], 3);
    gives(
        &rt,
        &table,
        &mut line,
        HeardSignal::MutilatedDigit,
        &mut room,
        1,
    );
    assert!(rt; is_same(&room[0], &mark(4, 2, 0, 0)));
    assert_eq!(rt; dialled(&line, &mut digits), 0);
    Ok(())
}

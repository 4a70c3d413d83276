// Streams that fail in the middle, give or take little at a time, or are interrupted.
use std::alloc::Global;
use std::io::ErrorKind;
use std::process::Abort;
use test_kit::{Halting, Short};
use xb_model::RowFault;
use xb_rows::read_rows;
use xb_text::{ReadFault, WriteFault, read_whole, write_whole};

const ROWS: &[u8] = b"line,state,ms\n7,M,1\n";

// Whatever the rows say, a failed read comes first, and an interrupted one is not tried again.
fn check_failed_read(rt: &impl Abort, alloc: Global, text: &[u8], kind: ErrorKind) {
    for place in 0..=text.len() {
        let mut reader = Halting::failing(text, 3, place, kind);
        let got = read_rows(alloc, &mut reader);
        assert_eq!(rt;
            got.err(),
            Some(RowFault::Read),
            "{kind:?} at {place} of {}",
            text.escape_ascii()
        );
        assert_eq!(rt; reader.read_again, 0, "{kind:?} at {place}");
    }
}

// A limit, what reading five bytes to it returns, and how many bytes are then left in the reader.
const LIMITS: &[(usize, Option<ReadFault>, usize)] = &[
    (6, None, 0),
    (5, None, 0),
    (4, Some(ReadFault::TooLong), 0),
    (3, Some(ReadFault::TooLong), 1),
    (0, Some(ReadFault::TooLong), 4),
];

// Checks what reading five bytes, at most `step` at a time, returns at a limit.
fn check_limit(
    rt: &impl Abort,
    alloc: Global,
    step: usize,
    limit: usize,
    fault: Option<ReadFault>,
    left: usize,
) {
    let mut reader = Halting::new(b"01234", step);
    let got = read_whole(alloc, &mut reader, limit);
    assert_eq!(rt; reader.rest.len(), left, "limit {limit}, {step} at a time");
    match got {
        Ok(bytes) => {
            assert_eq!(rt; fault, None, "limit {limit}, {step} at a time");
            assert!(rt;
                bytes.as_slice() == b"01234".as_slice(),
                "limit {limit}, {step} at a time"
            );
        }
        Err(got) => assert_eq!(rt; fault, Some(got), "limit {limit}, {step} at a time"),
    }
}

#[test]
fn reads_up_to_the_limit_or_a_read_that_fails(rt: HostRuntime) {
    for text in [ROWS, b"no header\n"] {
        check_failed_read(&rt, rt.alloc(), text, ErrorKind::Other);
        check_failed_read(&rt, rt.alloc(), text, ErrorKind::Interrupted);
    }
    for (limit, fault, left) in LIMITS {
        for step in [1, 2, 9] {
            check_limit(&rt, rt.alloc(), step, *limit, *fault, *left);
        }
    }
}

// The room of a writer, how it fails then, how its flush fails, and how many of twelve bytes it gets.
const WRITERS: &[(usize, Option<ErrorKind>, Option<ErrorKind>, usize)] = &[
    (100, None, None, 12),
    (12, None, None, 12),
    (10, Some(ErrorKind::Other), None, 10),
    (10, Some(ErrorKind::Interrupted), None, 10),
    (10, None, None, 10),
    (0, None, None, 0),
    (100, None, Some(ErrorKind::Other), 12),
];

#[test]
fn writes_all_or_fails(rt: HostRuntime) {
    let text = b"0123456789ab".as_slice();
    for (room, fault, flush, taken) in WRITERS {
        let mut out = Short::new(rt.alloc(), *room, *fault);
        out.flush = *flush;
        let got = write_whole(&mut out, text);
        let is_whole = *room >= text.len() && flush.is_none();
        assert!(rt;
            got == if is_whole { Ok(()) } else { Err(WriteFault) },
            "room {room}"
        );
        assert!(rt; out.taken.as_slice() == &text[..*taken], "room {room}");
    }
}

// Records that are judged before their end: of a stray quote, of many fields, of long ones.
use std::alloc::{AllocError, Global};
use std::io::ErrorKind;
use std::process::Abort;
use test_kit::Halting;
use xb_model::{RowFault, RowSource};
use xb_rows::{RowReader, Scan};

// What stands after the header: a beginning, so many times a byte, and an end. Then how many rows come, and
// the fault after them.
type Case = (&'static [u8], u8, usize, &'static [u8], usize, RowFault);

// Texts whose fault is known once their last byte was read, though their last record goes on.
const UNENDED: &[Case] = &[
    (
        b"5,M,500\n5,\"B,60\n",
        b'a',
        5_000,
        b"",
        1,
        RowFault::Contact(2),
    ),
    (b"1,M,5,", b'x', 5_000, b"", 0, RowFault::Fields(1)),
    (b"1,M,5", b',', 1, b"", 0, RowFault::Fields(1)),
    (b"", b'1', 5_000, b"", 0, RowFault::Line(1)),
    (b"", b'1', 4_097, b"", 0, RowFault::Line(1)),
    (b"1,M,\"", b'"', 8_194, b"", 0, RowFault::Ms(1)),
    // a byte less, and it is not known
    (b"1,M,\"", b'"', 8_193, b"", 0, RowFault::Read),
    (b"", b'1', 4_096, b"", 0, RowFault::Read),
];

// Texts that end, and the fault of each where it is whole: there a record is judged by all its fields.
const ENDED: &[(Case, RowFault)] = &[
    (
        (b"\"", b'a', 4_096, b"\",M,5\n", 0, RowFault::Line(1)),
        RowFault::Line(1),
    ),
    (
        (b"5,M,\"", b'0', 5_000, b"\"\n", 0, RowFault::Ms(1)),
        RowFault::Ms(1),
    ),
    (
        (b"", b'a', 4_096, b"\n", 0, RowFault::Fields(1)),
        RowFault::Fields(1),
    ),
    (
        (b"", b'a', 4_097, b"\n", 0, RowFault::Line(1)),
        RowFault::Fields(1),
    ),
    (
        (b"5,", b'M', 4_097, b"", 0, RowFault::Contact(1)),
        RowFault::Fields(1),
    ),
    (
        (b"5,M,", b'0', 5_000, b",5\n", 0, RowFault::Ms(1)),
        RowFault::Fields(1),
    ),
    (
        (b"5,M,5,", b'0', 5_000, b"\n", 0, RowFault::Fields(1)),
        RowFault::Fields(1),
    ),
];

fn text_of(alloc: Global, case: Case) -> Result<Vec<u8>, AllocError> {
    let (begin, byte, count, end, _, _) = case;
    let mut text = Vec::new(alloc);
    text.extend_from_slice(b"line,state,ms\n")?;
    text.extend_from_slice(begin)?;
    for _ in 0..count {
        text.push(byte)?;
    }
    text.extend_from_slice(end)?;
    Ok(text)
}

// Checks that a stream that gives a text and then fails has these rows, and then this fault for good.
fn check_stream(rt: &impl Abort, text: &[u8], step: usize, rows: usize, fault: RowFault) {
    let mut stream = Halting::failing(text, step, text.len(), ErrorKind::Other);
    let mut reader = RowReader::new(&mut stream, u64::MAX);
    for _ in 0..rows {
        assert!(rt; reader.next_row().is_ok_and(|row| row.is_some()));
    }
    for _ in 0..3 {
        assert_eq!(rt;
            reader.next_row().err(),
            Some(fault),
            "{step} bytes at a time"
        );
    }
}

// Checks that a whole text has these rows, and then this fault for good.
fn check_text(rt: &impl Abort, alloc: Global, text: &[u8], rows: usize, fault: RowFault) {
    let mut scan = Scan::new(alloc, text);
    for _ in 0..rows {
        assert!(rt; scan.next_row().is_ok_and(|row| row.is_some()));
    }
    for _ in 0..3 {
        assert_eq!(rt; scan.next_row().err(), Some(fault));
    }
}

#[test]
fn judges_long_fields_before_the_end_of_their_record(rt: HostRuntime) -> Result<(), AllocError> {
    for case in UNENDED {
        let text = text_of(rt.alloc(), *case)?;
        for step in [1, 100, 100_000] {
            check_stream(&rt, &text, step, case.4, case.5);
        }
    }
    for (case, whole) in ENDED {
        let text = text_of(rt.alloc(), *case)?;
        check_text(&rt, rt.alloc(), &text, case.4, *whole);
        check_stream(&rt, &text, 100, case.4, case.5);
    }
    Ok(())
}

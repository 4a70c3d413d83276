// Rows read of streams.
use std::io::ErrorKind;
use std::process::Abort;
use std::test::Fail;
use test_kit::Halting;
use xb_model::{Contact, Row, RowFault};
use xb_rows::{RowReader, rows_of_text};

const TEXT: &[u8] = b"line,state,ms\n7,M,500\n\"7\",B,60\n0042,C,0\n";

// How many bytes of the text end with each of its records.
const ENDS: &[usize] = &[14, 22, 31, 40];

// Checks that a call gives the row that the text's record `n` writes.
fn check_row(rt: &impl Abort, n: usize, given: Result<Option<Row>, RowFault>) {
    let (line, contact, ms) = match n {
        1 => (7, Contact::Make, 500),
        2 => (7, Contact::Brk, 60),
        _ => (42, Contact::Close, 0),
    };
    let is_row = given.is_ok_and(|row| {
        row.is_some_and(|row| {
            row.line().get() == line && row.contact() == contact && row.ms() == ms
        })
    });
    assert!(rt; is_row, "record {n}");
}

// Checks that a stream that fails after its record `last`, which ends at `end`, gives each row up to that
// one: the rows come before a further read. The failure is told for good, though the stream would go on.
fn check_failing(rt: &impl Abort, last: usize, end: usize, step: usize) {
    let mut stream = Halting::failing(TEXT, step, end, ErrorKind::Interrupted);
    let mut reader = RowReader::new(&mut stream, u64::MAX);
    for n in 1..=last {
        check_row(rt, n, reader.next_row());
    }
    for call in 0..3 {
        assert!(rt;
            reader.next_row().err() == Some(RowFault::Read),
            "call {call} after {last}"
        );
    }
}

#[test]
fn gives_a_row_once_its_end_is_read(rt: HostRuntime) {
    for (last, end) in ENDS.iter().enumerate() {
        // a byte, some bytes, and all that there is at a time
        for step in [1, 5, 100] {
            check_failing(&rt, last, *end, step);
        }
    }
}

// Of three records two may be read.
fn check_too_many(rt: &impl Abort, step: usize) {
    let mut stream = Halting::new(TEXT, step);
    let mut reader = RowReader::new(&mut stream, 2);
    check_row(rt, 1, reader.next_row());
    check_row(rt, 2, reader.next_row());
    for _ in 0..3 {
        assert!(rt; reader.next_row().err() == Some(RowFault::TooMany));
    }
}

#[test]
fn reads_a_stream_to_its_end_or_its_last_record(rt: HostRuntime) {
    for step in [1, 5, 100] {
        let mut stream = Halting::new(TEXT, step);
        let mut reader = RowReader::new(&mut stream, 3);
        for n in 1..=3 {
            check_row(&rt, n, reader.next_row());
        }
        for _ in 0..3 {
            assert!(rt; reader.next_row().is_ok_and(|row| row.is_none()));
        }
        check_too_many(&rt, step);
    }
}

#[test]
fn reads_all_rows_of_a_text(rt: HostRuntime) -> Result<(), Fail> {
    let rows = rows_of_text(rt.alloc(), TEXT)?;
    assert_eq!(rt; rows.len(), 3);
    for (n, row) in rows.iter().enumerate() {
        check_row(&rt, n + 1, Ok(Some(*row)));
    }
    Ok(())
}

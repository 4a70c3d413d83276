// The rows of texts, and their faults.
use std::alloc::{AllocError, Global};
use std::process::Abort;
use std::test::Fail;
use xb_model::{Contact, Row, RowFault, RowSource};
use xb_rows::{Scan, read_rows};

// A row, as its line, its contact and its time.
type RowParts = (u16, Contact, u32);

// A text, its rows, and the fault after them.
type Case = (&'static [u8], &'static [RowParts], Option<RowFault>);

const MAKE: Contact = Contact::Make;

const BREAK: Contact = Contact::Brk;

const CLOSE: Contact = Contact::Close;

// Whole texts: what is a header.
const HEADERS: &[Case] = &[
    (b"", &[], Some(RowFault::Header)),
    (b"\n\n", &[], Some(RowFault::Header)),
    (b"5,M,1\n", &[], Some(RowFault::Header)),
    (b"line,state\n5,M,1\n", &[], Some(RowFault::Header)),
    (b"line,state,ms,more\n", &[], Some(RowFault::Header)),
    (b"line,state,ms \n", &[], Some(RowFault::Header)),
    (b"Line,state,ms\n", &[], Some(RowFault::Header)),
    (b"line,state,ms", &[], None),
    (b"line,state,ms\n", &[], None),
    (b"\r\n\nline,state,ms\r\n\r\n", &[], None),
    (b"\"line\",state,\"ms\"\n5,M,1\n", &[(5, MAKE, 1)], None),
    (b"\xEF\xBB\xBFline,state,ms\n5,M,1\n", &[(5, MAKE, 1)], None),
    (
        b"line,state,ms\r5,M,500\r5,B,60\r",
        &[(5, MAKE, 500), (5, BREAK, 60)],
        None,
    ),
    (
        b"line,state,ms\r\n5,M,500\r\n5,C,0\r\n",
        &[(5, MAKE, 500), (5, CLOSE, 0)],
        None,
    ),
];

// Texts after a header.
const RECORDS: &[Case] = &[
    // empty lines are no records and do not count
    (
        b"\n5,M,500\n\n\n6,B\n",
        &[(5, MAKE, 500)],
        Some(RowFault::Fields(2)),
    ),
    (b"5,M,500\n5,B,60", &[(5, MAKE, 500), (5, BREAK, 60)], None),
    // fields
    (b"7,M\n", &[], Some(RowFault::Fields(1))),
    (b"7,M,1,2\n", &[], Some(RowFault::Fields(1))),
    (b"x\n", &[], Some(RowFault::Fields(1))),
    (b"\"\"\n", &[], Some(RowFault::Fields(1))),
    (b"7,\"M,10", &[], Some(RowFault::Fields(1))),
    // line
    (b"0,M,1\n", &[(0, MAKE, 1)], None),
    (
        b"0005,M,1\n9999,M,1\n",
        &[(5, MAKE, 1), (9999, MAKE, 1)],
        None,
    ),
    (b"00005,M,1\n", &[], Some(RowFault::Line(1))),
    (b"10000,X,0\n", &[], Some(RowFault::Line(1))),
    (b",M,1\n", &[], Some(RowFault::Line(1))),
    (b"+5,M,1\n", &[], Some(RowFault::Line(1))),
    (b" 5,M,1\n", &[], Some(RowFault::Line(1))),
    (b"x,X,x\n", &[], Some(RowFault::Line(1))),
    // state
    (b"7,X,1\n", &[], Some(RowFault::Contact(1))),
    (b"7,m,1\n", &[], Some(RowFault::Contact(1))),
    (b"7,MM,1\n", &[], Some(RowFault::Contact(1))),
    (b"7,,x\n", &[], Some(RowFault::Contact(1))),
    (b"7,\xFF,5\n", &[], Some(RowFault::Contact(1))),
    // ms
    (b"7,M,86400000\n", &[(7, MAKE, 86_400_000)], None),
    (b"7,M,86400001\n", &[], Some(RowFault::Ms(1))),
    (b"7,B,99999999\n", &[], Some(RowFault::Ms(1))),
    (b"7,B,00000001\n", &[(7, BREAK, 1)], None),
    (b"7,M,000000001\n", &[], Some(RowFault::Ms(1))),
    (b"7,M,\n", &[], Some(RowFault::Ms(1))),
    (b"7,M,+5\n", &[], Some(RowFault::Ms(1))),
    (b"7,M,-1\n", &[], Some(RowFault::Ms(1))),
    (b"7,M,5\xFF\n", &[], Some(RowFault::Ms(1))),
    (b"7,C,0\n8,C,00\n", &[(7, CLOSE, 0), (8, CLOSE, 0)], None),
    (b"7,C,1\n", &[], Some(RowFault::Ms(1))),
    // quotes
    (b"\"7\",\"M\",\"1\"0\n", &[(7, MAKE, 10)], None),
    (b"7,M,1\"0\n", &[], Some(RowFault::Ms(1))),
    (b"7,M,\"10", &[(7, MAKE, 10)], None),
    // only the rows before the first fault, and records after a close count too
    (
        b"7,M,1\n7,B,2\n7,M\nx\n",
        &[(7, MAKE, 1), (7, BREAK, 2)],
        Some(RowFault::Fields(3)),
    ),
    (
        b"7,C,0\n7,X,1\n",
        &[(7, CLOSE, 0)],
        Some(RowFault::Contact(2)),
    ),
    // a good record after the fault is not read
    (b"7,M\n7,M,1\n7,M,2\n", &[], Some(RowFault::Fields(1))),
];

fn parts_of(row: Row) -> RowParts {
    (row.line().get(), row.contact(), row.ms())
}

// A header, and records.
fn with_header(alloc: Global, records: &[u8]) -> Result<Vec<u8>, AllocError> {
    let mut text = Vec::new(alloc);
    text.extend_from_slice(b"line,state,ms\n")?;
    text.extend_from_slice(records)?;
    Ok(text)
}

// Checks that what was read of a text are its rows, or its fault and no row.
fn check_whole(
    rt: &impl Abort,
    text: &[u8],
    got: Result<Vec<Row>, RowFault>,
    wanted: &[RowParts],
    stop: Option<RowFault>,
) {
    let text = text.escape_ascii();
    match got {
        Ok(rows) => {
            assert_eq!(rt; stop, None, "{text}");
            assert_eq!(rt; rows.len(), wanted.len(), "{text}");
            for (row, parts) in rows.iter().zip(wanted) {
                assert!(rt; parts_of(*row) == *parts, "{row:?} of {text}");
            }
        }
        Err(fault) => assert_eq!(rt; stop, Some(fault), "{text}"),
    }
}

// Checks that a `Scan` gives a text's rows, and then its stop for good.
fn check_scan(
    rt: &impl Abort,
    alloc: Global,
    text: &[u8],
    wanted: &[RowParts],
    stop: Option<RowFault>,
) {
    let mut scan = Scan::new(alloc, text);
    let text = text.escape_ascii();
    for parts in wanted {
        let row = scan.next_row();
        let as_wanted = row.is_ok_and(|row| row.is_some_and(|row| parts_of(row) == *parts));
        assert!(rt; as_wanted, "{parts:?} of {text}");
    }
    for call in 0..3 {
        match scan.next_row() {
            Ok(row) => assert!(rt;
                row.is_none() && stop.is_none(),
                "call {call} at the end of {text}"
            ),
            Err(fault) => assert_eq!(rt; stop, Some(fault), "call {call} at the fault of {text}"),
        }
    }
}

// Checks a text through each call that reads rows.
fn check_text(
    rt: &impl Abort,
    alloc: Global,
    text: &[u8],
    wanted: &[RowParts],
    stop: Option<RowFault>,
) {
    let mut reader = text;
    check_whole(rt, text, read_rows(alloc, &mut reader), wanted, stop);
    check_scan(rt, alloc, text, wanted, stop);
}

#[test]
fn reads_headers_and_records(rt: HostRuntime) -> Result<(), Fail> {
    for (text, wanted, stop) in HEADERS {
        check_text(&rt, rt.alloc(), text, wanted, *stop);
    }
    for (records, wanted, stop) in RECORDS {
        let text = with_header(rt.alloc(), records)?;
        check_text(&rt, rt.alloc(), &text, wanted, *stop);
    }
    Ok(())
}

#[test]
fn reads_a_million_records(rt: HostRuntime) -> Result<(), Fail> {
    let alloc = rt.alloc();
    let mut text = with_header(alloc, b"")?;
    for _ in 0..1_000_000 {
        text.extend_from_slice(b"5,M,0\n")?;
    }
    let mut reader = text.as_slice();
    let rows = read_rows(alloc, &mut reader);
    assert!(rt; rows.is_ok_and(|rows| rows.len() == 1_000_000));
    // the fields of one more are not looked at
    text.extend_from_slice(b"x\n")?;
    let mut reader = text.as_slice();
    assert!(rt; read_rows(alloc, &mut reader).err() == Some(RowFault::TooMany));
    Ok(())
}

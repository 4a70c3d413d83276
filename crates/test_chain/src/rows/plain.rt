// Plain records beside the same text as a stream, which is read byte by byte.
use std::alloc::{AllocError, Global};
use std::process::Abort;
use xb_model::RowSource;
use xb_rows::{RowReader, Scan};

// A header and three records, each of the plain form.
const PLAIN: &[u8] = b"line,state,ms\n7,M,5\n42,C,0\n9,B,60\n";

// Checks that a `Scan` gives what a `RowReader` gives of a text, and then its stop for good.
fn check_text(rt: &impl Abort, alloc: Global, text: &[u8]) {
    let mut stream = text;
    let mut reader = RowReader::new(&mut stream, 1_000_000);
    let mut scan = Scan::new(alloc, text);
    for call in 1..=5 {
        let same = reader.next_row() == scan.next_row();
        assert!(rt; same, "call {call} of {}", text.escape_ascii());
    }
}

// Checks each text that differs from the plain one in one byte at one of these places.
fn check_changes(rt: &impl Abort, alloc: Global, from: usize, to: usize) -> Result<(), AllocError> {
    let mut text = Vec::new(alloc);
    text.extend_from_slice(PLAIN)?;
    for (place, plain) in PLAIN.iter().enumerate() {
        if place >= from && place < to && place < text.len() {
            for byte in 0..=u8::MAX {
                text[place] = byte;
                check_text(rt, alloc, &text);
            }
            text[place] = *plain;
        }
    }
    Ok(())
}

#[test]
fn reads_changes_of_records_as_in_a_stream(rt: HostRuntime) -> Result<(), AllocError> {
    check_changes(&rt, rt.alloc(), 14, 34)
}

// Texts that leave the plain form at some record.
const OTHERS: &[&[u8]] = &[
    b"\"line\",state,ms\n7,M,500\n",
    b"line,state,ms\n\"7\",M,500\n7,\"B\",60\n7,M,\"40\"\n",
    b"line,state,ms\r\n7,M,500\r\n7,B,60\r\n",
    b"line,state,ms\n7,M,500\r\n7,B,60\r\n",
    b"line,state,ms\n7,M,500\n7,B,60",
    b"line,state,ms\n7,M,500\n\n7,B,60\n",
    b"line,state,ms\n7,M,500\n\xEF\xBB\xBF7,B,60\n",
    b"line,state,ms\n\xEF\xBB\xBF7,B,60\n",
    b"\xEF\xBB\xBFline,state,ms\n7,B,60\n",
    b"line,state,ms\n7,M,500\n+7,B,60\n",
    b"line,state,ms\n7,M,500\n00007,B,60\n",
    b"line,state,ms\n7,M,500\n7,B,000000060\n",
    b"line,state,ms\n7,M,500\n7,B,60,\n",
    b"line,state,ms\n7,M,500\n7,B\n",
    b"line,state,ms\n7,M,500\n7,C,1\n",
    b"line,state,ms\n",
    b"line,state,ms",
    b"",
];

#[test]
fn reads_changes_of_the_header_and_other_forms_as_in_a_stream(
    rt: HostRuntime,
) -> Result<(), AllocError> {
    for text in OTHERS {
        check_text(&rt, rt.alloc(), text);
    }
    check_changes(&rt, rt.alloc(), 0, 14)
}

// Streams that fail.
use crate::route::statuses::Mfroute;
use std::io::ErrorKind;
use std::test::Fail;
use test_kit::{Gives, Halting, Short, check_reads, check_streams, check_writes};

const LINE: &[u8] = b"5551234 REFUSED UNKNOWN 7\n";

const ROOMS: &[usize] = &[0, 1, LINE.len() - 1];

// The line of a write or a flush that failed.
const NOT_WRITTEN: &[u8] = b"mfroute: the lines could not be written\n";

#[test]
fn fails_where_a_stream_fails(rt: HostRuntime) -> Result<(), Fail> {
    let numbers = b"234-5678\n0\n";
    let line = b"mfroute: the numbers could not be read\n";
    for place in 0..=numbers.len() {
        check_reads(rt.alloc(), &Mfroute, &["seven"], numbers, &[place], line)?;
    }
    let words = &["seven", "5551234"];
    check_writes(rt.alloc(), &Mfroute, words, b"", ROOMS, NOT_WRITTEN)?;
    // the line is taken, and its flush fails
    let mut reader = Halting::new(b"", 1);
    let mut out = Short::new(rt.alloc(), 4096, None);
    out.flush = Some(ErrorKind::Other);
    let wanted = Gives {
        status: 1,
        written: LINE,
        line: NOT_WRITTEN,
    };
    check_streams(rt.alloc(), &Mfroute, words, &mut reader, &mut out, wanted)
}

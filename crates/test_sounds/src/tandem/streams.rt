// Streams that fail, and text lines that are too long.
use crate::tandem::statuses::Mftandem;
use std::alloc::Global;
use std::io::ErrorKind;
use std::test::Fail;
use test_kit::{Gives, Halting, Short, check_status, check_streams, check_writes};
use xb_tandem::MOST_LINE_BYTES;

const KEYS: &[u8] =
    b"{\"at_ms\":0,\"key\":\"KP\",\"length_ms\":68}\n{\"at_ms\":136,\"key\":\"9\",\"length_ms\":68}\n\
{\"at_ms\":272,\"key\":\"ST\",\"length_ms\":68}\n{\"at_ms\":408,\"key\":\"KP\",\"length_ms\":68}\n";

const ENTRY: &[u8] = b"0000 1 REFUSED UNKNOWN 1\n";

// Where the third line ends, with which the entry is certain.
const CERTAIN: usize = 117;

const ROOMS: &[usize] = &[0, 1, ENTRY.len() - 1, ENTRY.len(), ENTRY.len() + 1];

#[test]
fn keeps_what_is_certain_where_a_stream_fails(rt: HostRuntime) -> Result<(), Fail> {
    let line = b"mftandem: the keys could not be read\n";
    for place in 0..=KEYS.len() {
        let mut reader = Halting::failing(KEYS, 4, place, ErrorKind::Interrupted);
        let mut out = Short::new(rt.alloc(), usize::MAX, None);
        let wanted = Gives {
            status: 1,
            written: if place < CERTAIN {
                b"".as_slice()
            } else {
                ENTRY
            },
            line,
        };
        check_streams(
            rt.alloc(),
            &Mftandem,
            &["none"],
            &mut reader,
            &mut out,
            wanted,
        )?;
    }
    let line = b"mftandem: the entries could not be written\n";
    check_writes(rt.alloc(), &Mftandem, &["none"], KEYS, ROOMS, line)
}

// A text line of blanks, of so many bytes in all, that ends with an object.
fn long_line(alloc: Global, bytes: usize) -> Result<Vec<u8>, Fail> {
    let mut line = vec![in alloc; b' '; bytes.saturating_sub(2)]?;
    line.extend_from_slice(b"{}\n")?;
    Ok(line)
}

#[test]
fn refuses_a_line_that_is_too_long(rt: HostRuntime) -> Result<(), Fail> {
    let longest = long_line(rt.alloc(), MOST_LINE_BYTES)?;
    let taken = Gives::page(b"KEYED 0 REFUSED 0\n");
    check_status(rt.alloc(), &Mftandem, &["none"], &longest, taken)?;
    let longer = long_line(rt.alloc(), MOST_LINE_BYTES + 1)?;
    let refused = Gives::fault(1, b"mftandem: text line 1 is longer than 65536 bytes\n");
    check_status(rt.alloc(), &Mftandem, &["none"], &longer, refused)
}

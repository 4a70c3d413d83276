// A deck, its page, and the program by its words.
ghost use Rattle.std.specs.Prelude.{◌≤◌};

use std::alloc::{AllocError, Global};
use std::io::{Read, Write};
use std::sync::Wait;
use std::thread::Threads;
use std::time::Clock;
use xb_bank::{RowSource, Tapes};
use xb_model::{Row, RowFault};
use xb_office::{OfficeFault, Scan, attend, operate, page, read_rows};
use xb_ring::Post;
use xb_routes::RouteFault;

/// Why there is no page, in the order in which it is told.
pub const OFFICE_FAULTS: [OfficeFault; 8] = [
    OfficeFault::Read,
    OfficeFault::DeckTooLong,
    OfficeFault::NoCut,
    OfficeFault::Routes(RouteFault::NotToml),
    OfficeFault::Rows(RowFault::Header),
    OfficeFault::Bank(Post::Tape),
    OfficeFault::NoMemory,
    OfficeFault::Write,
];

/// The rows of a reader.
pub fn rows_of_reader<R: Read>(alloc: Global, reader: &mut R) -> Result<Vec<Row>, RowFault> {
    read_rows(alloc, reader)
}

/// The rows of a text, one at a time.
pub fn scan_of_text(alloc: Global, text: &[u8]) -> Scan<'_> {
    Scan::new(alloc, text)
}

/// The next of them.
pub fn next_of_scan(scan: &mut Scan<'_>) -> Result<Option<Row>, RowFault> {
    scan.next_row()
}

/// The page of tapes.
pub fn page_of_tapes(alloc: Global, tapes: &Tapes) -> Result<Vec<u8>, AllocError> {
    page(alloc, tapes)
}

/// The page of a deck, written.
pub fn write_page<R: Read, W: Write, H: Threads + Wait + Clock + Sync>(
    rt: &H,
    alloc: Global,
    deck: &mut R,
    out: &mut W,
    senders: usize,
    room: usize,
) -> Result<(), OfficeFault>
    requires least_senders { 1 ≤ senders }
    requires most_senders { senders ≤ 8 }
    requires least_room { 1 ≤ room }
    requires most_room { room ≤ 1024 }
{
    operate(rt, alloc, deck, out, senders, room)
}

/// The status of the program.
pub fn attend_to_words<R: Read, W: Write, E: Write, H: Threads + Wait + Clock + Sync>(
    rt: &H,
    alloc: Global,
    words: Vec<String>,
    deck: &mut R,
    out: &mut W,
    err: &mut E,
) -> u8 {
    attend(rt, alloc, words, deck, out, err)
}

// The program, called by words, and the files that these name.
use crate::rx::statuses::FILE;
use std::alloc::Global;
use test_kit::{Folder, Program, Streams};
use xb_command::{Call, attend};
use xb_rx::{Asked, PROGRAM};

// Two keyings, of which the tests sound other ones.
const PAGE: &[u8] = b"0007 1 KEYED 0017 KP:1100+1700 5:900+1300 0:1300+1500 ST:1500+1700\n\
0007 2 REFUSED UNKNOWN 3\n\
0007 3 KEYED 0017 KP:1100+1700 2:700+1100 ST:1500+1700\n\
KEYED 2 REFUSED 1\n";

// The files that there are.
const FOLDER: Folder = Folder(&[
    ("empty.wav", FILE),
    ("page", PAGE),
    ("none", b"KEYED 0 REFUSED 0\n"),
    ("damaged", b"KEYED 1 REFUSED 0\n"),
]);

/// The program `mfrx`.
#[derive(Clone, Copy)]
pub(crate) struct Mfrx;

impl Program for Mfrx {
    fn name(&self) -> &'static str {
        "mfrx"
    }

    fn attend(&self, alloc: Global, words: &[String], streams: Streams<'_, '_>) -> u8 {
        let Streams { reader, out, err } = streams;
        let call = Call {
            program: &PROGRAM,
            words,
            is_typed: false,
            is_shown: false,
        };
        attend::<Asked<'_>, _, _, _, _>(alloc, &call, &FOLDER, reader, out, err)
    }
}

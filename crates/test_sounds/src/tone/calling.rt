// The program, called by words.
use crate::tone::sounds::PAGE;
use std::alloc::Global;
use std::io::{Read, Write};
use test_kit::Folder;
use xb_command::{Call, attend};
use xb_tone::{Asked, PROGRAM};

// The files that there are.
const FOLDER: Folder = Folder(&[("day.page", PAGE), ("call.wav", b"RIFF\x24\0\0\0WAVEfmt ")]);

// Does what the words of a command line ask for, and gives the status.
pub(crate) fn sounded<R: Read, W: Write, E: Write>(
    alloc: Global,
    words: &[String],
    reader: &mut R,
    out: &mut W,
    err: &mut E,
) -> u8 {
    let call = Call {
        program: &PROGRAM,
        words,
        is_typed: false,
        is_shown: false,
    };
    attend::<Asked<'_>, _, _, _, _>(alloc, &call, &FOLDER, reader, out, err)
}

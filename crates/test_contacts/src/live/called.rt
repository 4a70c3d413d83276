// The program `mflive`, with files of tests.
use std::alloc::Global;
use test_kit::{Folder, Program, Streams, called};
use xb_command::attend;
use xb_live::{Asked, PROGRAM};

// The files that there are.
pub(crate) const FOLDER: Folder = Folder(&[
    ("day.deck", b"---\nline,state,ms\n7,M,500\n7,B,400\n"),
    ("call.wav", b"RIFF\x24\0\0\0WAVEfmt "),
]);

/// The program `mflive`.
#[derive(Clone, Copy)]
pub struct Mflive;

impl Program for Mflive {
    fn name(&self) -> &'static str {
        "mflive"
    }

    fn attend(&self, alloc: Global, words: &[String], streams: Streams<'_, '_>) -> u8 {
        let Streams { reader, out, err } = streams;
        attend::<Asked<'_>, _, _, _, _>(alloc, &called(&PROGRAM, words), &FOLDER, reader, out, err)
    }
}

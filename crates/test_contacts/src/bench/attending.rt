// The program `mfbench`, and what it prints of a recording.
use std::alloc::Global;
use std::test::Fail;
use test_kit::{Folder, Gives, Program, Streams, check_status};
use xb_bench::{Asked, PROGRAM};
use xb_command::{Call, attend};

/// The program `mfbench`.
#[derive(Clone, Copy)]
pub struct Mfbench;

impl Program for Mfbench {
    fn name(&self) -> &'static str {
        "mfbench"
    }

    fn attend(&self, alloc: Global, words: &[String], streams: Streams<'_, '_>) -> u8 {
        let Streams { reader, out, err } = streams;
        let call = Call {
            program: &PROGRAM,
            words,
            is_typed: false,
            is_shown: false,
        };
        attend::<Asked<'_>, _, _, _, _>(alloc, &call, &Folder(&[]), reader, out, err)
    }
}

/// The first lines, where a dial of Bell is asked for.
pub const BELL: &str = "dial: adjust 9.5-10.5, accept 8.0-11.0 pulses a second, 58.0-64.0 % break
line  digit  pulses    p/s  % break     break ms      make ms  drift %  bounce ms  verdict
";

/// Checks what is printed of a recording: the first lines and the others.
pub fn check_lines(
    alloc: Global,
    words: &[&str],
    recording: &[u8],
    first: &str,
    lines: &str,
) -> Result<(), Fail> {
    let mut all = first.to_string(alloc)?;
    all.push_str(lines)?;
    check_status(
        alloc,
        &Mfbench,
        words,
        recording,
        Gives::page(all.as_bytes()),
    )
}

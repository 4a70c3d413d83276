// The program `mfloop`, and the tables that there are.
use std::alloc::Global;
use std::test::Fail;
use test_kit::{Fault, Folder, Gives, Program, Streams, check_status};
use xb_command::{Call, attend};
use xb_loop::{Asked, PROGRAM};

/// Three route tables: one that is right, one of another release limit, and one that is not TOML.
pub const TABLES: Folder = Folder(&[
    ("good.toml", b"route = []"),
    ("fast.toml", b"[limits]\nrelease = 200\n"),
    ("wrong.toml", b"route = ["),
]);

/// The program `mfloop`.
#[derive(Clone, Copy)]
pub struct Mfloop;

impl Program for Mfloop {
    fn name(&self) -> &'static str {
        "mfloop"
    }

    fn attend(&self, alloc: Global, words: &[String], streams: Streams<'_, '_>) -> u8 {
        let Streams { reader, out, err } = streams;
        let call = Call {
            program: &PROGRAM,
            words,
            is_typed: false,
            is_shown: false,
        };
        attend::<Asked<'_>, _, _, _, _>(alloc, &call, &TABLES, reader, out, err)
    }
}

/// Checks that recordings are refused after their rows are begun with this.
pub fn check_begun(alloc: Global, begun: &[u8], refused: &[Fault]) -> Result<(), Fail> {
    for (words, recording, line) in refused {
        let wanted = Gives {
            status: 1,
            written: begun,
            line,
        };
        check_status(alloc, &Mfloop, words, recording, wanted)?;
    }
    Ok(())
}

// The sound of a line's trunk: as many samples as its rows last, and the keys of its calls where they are due.
use crate::live::called::Mflive;
use crate::live::reckoned::{BEGINNING, END, joined};
use std::alloc::Global;
use std::io::ErrorKind;
use std::process::Abort;
use std::test::Fail;
use test_kit::{Halting, Short, attended, check_writes, run};

// The words after the program's name, how many samples are written of the deck, and which of them is the first that is
// not 0.
//
// Line 7 has 2060 ms up to the end of its digit, and 900 more. KP begins 500 ms after the digit, at 2560 ms, with a
// sample of 0. It sounds for 100 ms, 0 and ST for 68, with 68 of silence after each: up to 3000 ms. Line 9 has 900 ms.
const CASES: &[(&[&str], usize, Option<usize>)] = &[
    (&["--sound", "7"], 24_000, Some(20_481)),
    (&["--sound", "7", "--lead", "0"], 23_680, Some(16_481)),
    (
        &[
            "--sound", "7", "--lead", "900", "--kp", "50", "--key", "30", "--gap", "20",
        ],
        25_040,
        Some(23_681),
    ),
    (&["--sound", "9"], 7_200, None),
    (&["--sound", "8"], 0, None),
];

/// Which of the samples that bytes write is the first that is not 0.
pub(crate) fn first_sound(bytes: &[u8]) -> Option<usize> {
    let at = bytes.iter().position(|byte| *byte != 0)?;
    Some(at / 2)
}

#[test]
fn writes_as_many_samples_as_its_rows_last(rt: HostRuntime) -> Result<(), Fail> {
    let deck = joined(rt.alloc(), &[BEGINNING, END])?;
    for (options, samples, first) in CASES {
        let gave = attended(rt.alloc(), &Mflive, options, &deck)?;
        assert_eq!(rt; gave.status, 0, "{options:?}");
        assert_eq!(rt; gave.written.len(), samples * 2, "{options:?}");
        assert_eq!(rt; first_sound(&gave.written), *first, "{options:?}");
        assert!(rt; gave.line.is_empty(), "{options:?}");
    }
    Ok(())
}

// After how many bytes of the deck reading fails, and how many samples are written then: the first row and the last one
// are of line 9, and the rows of line 7 between them have 2060 ms.
const READS: &[(usize, usize)] = &[
    (0, 0),
    (BEGINNING.len() - 155, 0),
    (BEGINNING.len() - 8, 16_480),
    (BEGINNING.len(), 16_480),
    (BEGINNING.len() + END.len(), 23_680),
];

// Reads so many bytes of a deck, and then fails: the samples of the rows before are written, and nothing after them.
fn check_read(
    rt: &impl Abort,
    alloc: Global,
    deck: &[u8],
    read: (usize, usize),
) -> Result<(), Fail> {
    let (place, samples) = read;
    let mut reader = Halting::failing(deck, 40, place, ErrorKind::Interrupted);
    let mut out = Short::new(alloc, usize::MAX, None);
    let (got, told) = run(alloc, &Mflive, &["--sound", "7"], &mut reader, &mut out)?;
    assert_eq!(rt; got, 1, "{place}");
    assert_eq!(rt; out.taken.len() / 2, samples, "{place}");
    assert_eq!(rt; out.taken.len() % 2, 0, "{place}");
    let line = b"mflive: the deck could not be read\n".as_slice();
    assert!(rt; told.as_slice() == line, "{place}");
    Ok(())
}

#[test]
fn writes_the_samples_before_a_stream_that_fails(rt: HostRuntime) -> Result<(), Fail> {
    let deck = joined(rt.alloc(), &[BEGINNING, END])?;
    for read in READS {
        check_read(&rt, rt.alloc(), &deck, *read)?;
    }
    let rooms = [0, 1, 8_000, 40_962, 47_359, 47_999];
    let line = b"mflive: the samples could not be written\n";
    check_writes(rt.alloc(), &Mflive, &["--sound", "7"], &deck, &rooms, line)
}

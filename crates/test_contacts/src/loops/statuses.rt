// Words that are refused, and streams that fail.
use crate::loops::attending::{Mfloop, TABLES};
use std::io::ErrorKind;
use std::test::Fail;
use test_kit::{
    Case, Gives, Halting, Short, check_cases, check_status, check_writes, run, words_of,
};
use xb_command::{Call, attend};
use xb_loop::{Asked, PROGRAM};

const WORDS: &[&str] = &["--wire", "7=1"];

const RECORDING: &[u8] = b"0,0\n0.010,1\n0.030,1\n";

const ROWS: &[u8] = b"line,state,ms\n7,B,10\n7,M,20\n";

const REFUSED: &[&[&str]] = &[
    &["--wire", "7"],
    &["--wire", "10000=1"],
    // more than four digits, as a record has none
    &["--wire", "0000007=1"],
    &["--wire", "7="],
    &["--wire", "x=1"],
    // two wires for one line
    &["--wire", "7=1", "--wire", "7=2"],
    // words of a line that are none, are no number of 32 bits, or come twice
    &["--wire", "7=1,"],
    &["--wire", "7=1,invert"],
    &["--wire", "7=1, inverted"],
    &["--wire", "7=1,settle"],
    &["--wire", "7=1,settle="],
    &["--wire", "7=1,settle=5ms"],
    &["--wire", "7=1,settle=4294967296"],
    &["--wire", "7=1,tick=5"],
    &["--wire", "7=1,inverted,inverted"],
    &["--wire", "7=1,settle=5,settle=5"],
    &["--wire", "7=1,seize=150,settle=5,seize=150"],
    &["--wire", "7=,inverted"],
    &["--wire", "7=1,ringing,ringing"],
    // a make of a period of ringing would seize
    &["--wire", "7=1", "--ringing", "--seize", "67"],
    &["--wire", "7=1,seize=0,ringing"],
    &["--wire", "7=1", "--format", "csv"],
    // edges are lost of gpiomon alone
    &["--wire", "7=1", "--lossy", "--format", "edges"],
    &["--wire", "7=1", "--threshold", "0"],
    &["--wire", "7=1", "--threshold", "100"],
    &["--wire", "7=1", "--rate", "x"],
    &["--wire", "7=1", "--seize", "x"],
    // wires do not go with what is asked of rows
    &["--wire", "7=1", "--list"],
    &["--list", "--lossy"],
];

#[test]
fn fails_where_the_recording_fails(rt: HostRuntime) -> Result<(), Fail> {
    for place in 0..=RECORDING.len() {
        let mut reader = Halting::failing(RECORDING, 4, place, ErrorKind::Interrupted);
        let mut out = Short::new(rt.alloc(), usize::MAX, None);
        let (got, told) = run(rt.alloc(), &Mfloop, WORDS, &mut reader, &mut out)?;
        assert_eq!(rt; got, 1, "{place}");
        let line = b"mfloop: the recording could not be read\n".as_slice();
        assert!(rt; told.as_slice() == line, "{place}");
        assert!(rt; ROWS.starts_with(&out.taken), "{place}");
    }
    Ok(())
}

#[test]
fn writes_the_beginning_where_a_write_fails(rt: HostRuntime) -> Result<(), Fail> {
    check_status(rt.alloc(), &Mfloop, WORDS, RECORDING, Gives::page(ROWS))?;
    let line = b"mfloop: the rows could not be written\n";
    for room in 0..ROWS.len() {
        check_writes(rt.alloc(), &Mfloop, WORDS, RECORDING, &[room], line)?;
    }
    let (words, wires) = (["--list"], Gives::page(b"1\t1\n"));
    check_status(rt.alloc(), &Mfloop, &words, RECORDING, wires)?;
    let line = b"mfloop: the wires could not be written\n";
    check_writes(rt.alloc(), &Mfloop, &words, RECORDING, &[0, 1, 2, 3], line)
}

#[test]
fn fails_where_the_bounces_are_not_told(rt: HostRuntime) -> Result<(), Fail> {
    let told = b"line 7: 0 bounces, the longest 0 us\n".as_slice();
    for room in 0..told.len() {
        let words = words_of(rt.alloc(), "mfloop", &["--wire", "7=1", "--bounces"])?;
        let mut reader = RECORDING;
        let mut out = Vec::new(rt.alloc());
        let mut err = Short::new(rt.alloc(), room, Some(ErrorKind::Other));
        let call = Call {
            program: &PROGRAM,
            words: &words,
            is_typed: false,
            is_shown: false,
        };
        let status = attend::<Asked<'_>, _, _, _, _>(
            rt.alloc(),
            &call,
            &TABLES,
            &mut reader,
            &mut out,
            &mut err,
        );
        assert_eq!(rt; status, 1, "{room}");
        assert!(rt; out.as_slice() == ROWS, "{room}");
        assert!(rt; err.taken.as_slice() == &told[..room], "{room}");
    }
    Ok(())
}

// Words that name a route table, and the deck.
const DECKS: &[Case] = &[
    (
        &["--wire", "7=1", "--table", "good.toml"],
        RECORDING,
        0,
        b"route = []\n---\nline,state,ms\n7,B,10\n7,M,20\n",
        b"",
    ),
    (
        &["--wire", "7=1", "--table", "none.toml"],
        RECORDING,
        1,
        b"",
        b"mfloop: the route table could not be read: none.toml: entity not found\n",
    ),
    (
        &["--wire", "7=1", "--table", "wrong.toml"],
        RECORDING,
        1,
        b"",
        b"mfloop: route table: not TOML\n",
    ),
];

#[test]
fn ends_with_each_status(rt: HostRuntime) -> Result<(), Fail> {
    for words in REFUSED {
        let mut reader = Halting::new(RECORDING, 40);
        let mut out = Short::new(rt.alloc(), usize::MAX, None);
        let (got, told) = run(rt.alloc(), &Mfloop, words, &mut reader, &mut out)?;
        let is_line = told.starts_with(b"mfloop: ")
            && told.ends_with(b"; mfloop --help says more\n");
        assert_eq!(rt; got, 2, "{words:?}");
        assert!(rt; is_line, "{words:?}: {}", told.escape_ascii());
        assert!(rt; out.taken.is_empty());
        assert!(rt; reader.rest == RECORDING);
    }
    check_cases(rt.alloc(), &Mfloop, DECKS)
}

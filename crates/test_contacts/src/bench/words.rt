// Words that are refused, and recordings and streams that fail.
use crate::bench::attending::{BELL, Mfbench};
use std::io::ErrorKind;
use std::test::Fail;
use test_kit::{Gives, Halting, Short, attended, check_status, check_streams, run};

const REFUSED: &[&[&str]] = &[
    &[],
    &["--wire", "7"],
    &["--wire", "7=1", "--wire", "7=2"],
    // a run has to settle in some ms, and each make seizes
    &["--wire", "7=1,settle=0"],
    &["--wire", "7=1", "--settle", "0"],
    &["--wire", "7=1,seize=150"],
    &["--wire", "7=1,ringing"],
    &["--wire", "7=1", "--seize", "150"],
    &["--wire", "7=1", "--tick", "20"],
    &["--wire", "7=1", "--table", "routes.toml"],
    // windows that are none
    &["--wire", "7=1", "--dial", "ibm"],
    &["--wire", "7=1", "--speed", "10"],
    &["--wire", "7=1", "--speed", "10.5-9.5"],
    &["--wire", "7=1", "--speed", "9.55-10.5"],
    &["--wire", "7=1", "--speed", "-10.5"],
    &["--wire", "7=1", "--share", "58-64%"],
    &["--wire", "7=1", "--share", "58-1001"],
    // limits that are none, that a route table may not have, or that are said twice
    &["--wire", "7=1", "--limit", "seize=150"],
    &["--wire", "7=1", "--limit", "pause"],
    &["--wire", "7=1", "--limit", "pause=0"],
    &["--wire", "7=1", "--limit", "pause=1000000"],
    &["--wire", "7=1", "--limit", "pulse_max=300"],
    &["--wire", "7=1", "--limit", "pause=200,timeout=200"],
    &["--wire", "7=1", "--limit", "pause=200,pause=210"],
    // two forms, and a plot of two lines
    &["--wire", "7=1", "--html", "--svg"],
    &["--wire", "7=1", "--html", "--json"],
    &["--wire", "7=1", "--json", "--svg"],
    &["--wire", "7=1", "--wire", "8=2", "--svg"],
];

// Words with one value that the program does not take, and how the line begins that names it with its option.
const NAMED: &[(&[&str], &str)] = &[
    (
        &["--wire", "7=1", "--wire", "8=2,settle=0"],
        "mfbench: invalid value '8=2,settle=0' for '--wire': ",
    ),
    (
        &["--wire", "7=1", "--wire", "8=2,seize=150"],
        "mfbench: invalid value '8=2,seize=150' for '--wire': ",
    ),
    (
        &["--wire", "7=1", "--speed", "10", "--share", "58-64"],
        "mfbench: invalid value '10' for '--speed': ",
    ),
    (
        &["--wire", "7=1", "--speed", "9.5-10.5", "--share", "64-58"],
        "mfbench: invalid value '64-58' for '--share': ",
    ),
    (
        &["--wire", "7=1", "--limit", "pause=0"],
        "mfbench: invalid value 'pause=0' for '--limit': each is NAME=MS",
    ),
    (
        &["--wire", "7=1", "--limit", "pulse_max=300"],
        "mfbench: invalid value 'pulse_max=300' for '--limit': pulse_min is at most pulse_max",
    ),
];

const WORDS: &[&str] = &["--wire", "7=1"];

// Of two wires that a recording of one lacks the first is told.
const MISSING: &[&str] = &["--wire", "7=A", "--wire", "8=B", "--wire", "9=C"];

const ONE_WIRE: &[u8] = b"; Channels (1/1): A\n";

// A make, a pulse, a pause, and a time that is none.
const WRONG: &[u8] = b"0,1\n0.4,0\n0.46,1\n0.7,1\nx,1\n";

const BEFORE: &str =
    "0007      1       1      -        -         60.0            -        -        0.0        -\n";

#[test]
fn refuses_words(rt: HostRuntime) -> Result<(), Fail> {
    for words in REFUSED {
        let gave = attended(rt.alloc(), &Mfbench, words, WRONG)?;
        assert_eq!(rt; gave.status, 2, "{words:?}");
        let is_line = gave.line.starts_with(b"mfbench: ")
            && gave.line.ends_with(b"; mfbench --help says more\n");
        assert!(rt; is_line, "{words:?}: {}", gave.line.escape_ascii());
        assert!(rt; gave.written.is_empty(), "{words:?}");
    }
    for (words, line) in NAMED {
        let gave = attended(rt.alloc(), &Mfbench, words, WRONG)?;
        assert_eq!(rt; gave.status, 2, "{words:?}");
        assert!(rt;
            gave.line.starts_with(line.as_bytes()),
            "{words:?}: {}",
            gave.line.escape_ascii()
        );
    }
    Ok(())
}

// The digit whose pause was reached stands there before the fault.
#[test]
fn fails_where_the_recording_or_a_stream_fails(rt: HostRuntime) -> Result<(), Fail> {
    let mut before = BELL.to_string(rt.alloc())?;
    before.push_str(BEFORE)?;
    let wanted = Gives {
        status: 1,
        written: before.as_bytes(),
        line: b"mfbench: text line 5: a time was wanted: x,1\n",
    };
    check_status(rt.alloc(), &Mfbench, WORDS, WRONG, wanted)?;
    let gave = attended(rt.alloc(), &Mfbench, MISSING, ONE_WIRE)?;
    assert_eq!(rt; gave.status, 1);
    let missing = b"mfbench: the recording has no wire B; ";
    assert!(rt;
        gave.line.starts_with(missing),
        "{}",
        gave.line.escape_ascii()
    );
    let mut out = Short::new(rt.alloc(), usize::MAX, None);
    let mut reader = Halting::failing(WRONG, 4, 8, ErrorKind::Other);
    let (status, told) = run(rt.alloc(), &Mfbench, WORDS, &mut reader, &mut out)?;
    assert_eq!(rt; status, 1);
    assert!(rt;
        told.as_slice() == b"mfbench: the recording could not be read\n".as_slice(),
        "{}",
        told.escape_ascii()
    );
    let mut out = Short::new(rt.alloc(), 5, Some(ErrorKind::Other));
    let wanted = Gives {
        status: 1,
        written: b"dial:",
        line: b"mfbench: the lines could not be written\n",
    };
    let mut reader = Halting::new(WRONG, 40);
    check_streams(rt.alloc(), &Mfbench, WORDS, &mut reader, &mut out, wanted)
}

// Words, calls and streams in; a status, rows and lines of faults out.
use std::alloc::{AllocError, Global};
use std::io::ErrorKind;
use std::test::Fail;
use test_kit::{
    Fault, Folder, Gives, Halting, Page, Program, Refusal, Short, Streams, check_faults,
    check_pages, check_reads, check_refusals, check_streams, words_of,
};
use xb_command::{Call, Pipe, READER_GONE, attend};
use xb_dial::{Asked, PROGRAM};

// The program `mfdial`.
#[derive(Clone, Copy)]
struct Mfdial;

impl Program for Mfdial {
    fn name(&self) -> &'static str {
        "mfdial"
    }

    fn attend(&self, alloc: Global, words: &[String], streams: Streams<'_, '_>) -> u8 {
        let Streams { reader, out, err } = streams;
        let call = Call {
            program: &PROGRAM,
            words,
            is_typed: false,
            is_shown: false,
        };
        attend::<Asked<'_>, _, _, _, _>(alloc, &call, &FILES, reader, out, err)
    }
}

// Calls, and the same in UTF-16.
const FILES: Folder = Folder(&[
    ("calls.txt", b"7 1\n"),
    ("wide.txt", b"\xff\xfe7\0 \01\0\n\0"),
]);

// What is written of calls.
const PAGES: &[Page] = &[
    (&[], b"", b"line,state,ms\n"),
    (
        &["--incomplete"],
        b"# a call\n7 2-1\n",
        b"line,state,ms\n7,M,500\n7,B,60\n7,M,40\n7,B,60\n7,M,600\n7,B,60\n7,M,600\n",
    ),
    (
        &["--incomplete", "--speed", "20", "--in-turn"],
        b"7 2\n5 1\n7 1\n",
        b"line,state,ms\n5,M,500\n7,M,500\n5,B,30\n7,B,30\n5,M,600\n7,M,20\n7,B,30\n7,M,600
7,B,400\n7,M,500\n7,B,30\n7,M,600\n",
    ),
    (
        &[
            "--incomplete",
            "--break=20",
            "--make",
            "15",
            "--pause",
            "180",
            "--seize",
            "1",
            "--hang-up",
            "300",
        ],
        b"7 2\n7 1\n",
        b"line,state,ms\n7,M,1\n7,B,20\n7,M,15\n7,B,20\n7,M,180\n7,B,300\n7,M,1\n7,B,20\n7,M,180\n",
    ),
    // of 21 and 1 the 2 has a long break and one pulse too many, the 1 a flash; the second call a preliminary pulse
    (
        &[
            "--incomplete",
            "--fault",
            "1.1.2:break=130,1.1.1:extra,1.2:flash=90,2:preliminary=30",
        ],
        b"7 21\n7 1\n",
        b"line,state,ms\n7,M,500\n7,B,60\n7,M,40\n7,B,60\n7,M,40\n7,B,130\n7,M,600\n7,B,60\n7,M,600
7,B,90\n7,M,600\n7,B,400\n7,M,500\n7,B,30\n7,M,600\n7,B,60\n7,M,600\n",
    ),
    // a lost pulse and a short pause, and each pulse half as long again for each before it
    (
        &[
            "--incomplete",
            "--slow=50",
            "--fault=1.2:pause=100,1.1.2:lost",
        ],
        b"7 32\n",
        b"line,state,ms\n7,M,500\n7,B,60\n7,M,40\n7,B,120\n7,M,600\n7,B,60\n7,M,40\n7,B,90\n7,M,100\n",
    ),
    // times beyond the limits
    (
        &["--incomplete", "--out-of-limits", "--break=300", "--make=1"],
        b"7 2\n",
        b"line,state,ms\n7,M,500\n7,B,300\n7,M,1\n7,B,300\n7,M,600\n",
    ),
    // the contact of a line: open for a second, the 1, and open for a second more
    (
        &["--incomplete", "--vcd"],
        b"7 1\n",
        b"$timescale 1 us $end\n$var wire 1 ! loop $end\n$enddefinitions $end
#0\n0!\n#1000000\n1!\n#1500000\n0!\n#1560000\n1!\n#2160000\n0!\n#3160000\n",
    ),
    (&[], b"7 2125551", SEVEN_DIGITS),
    // a file in place of the input, which is left alone
    (&["--incomplete", "calls.txt"], b"x", SEVEN_ONE),
    (&["--incomplete", "-"], b"7 1", SEVEN_ONE),
    (&["--version"], b"7 0", b"mfdial 0.5\n"),
];

// Calls that are refused, and files that are none.
const FAULTS: &[Fault] = &[
    (
        &["--incomplete", "--out-of-limits", "--make=0"],
        b"7 1\n7 2\n",
        b"mfdial: call 2 has a time under 1 or over 86400000 ms\n",
    ),
    // places that are not there, or taken
    (
        &["--fault", "1.1.1:lost,1.8.1:lost"],
        b"7 411\n",
        b"mfdial: fault 2 is at a place that is not there\n",
    ),
    (
        &["--fault", "1.1:pause=100,1.1:flash=100"],
        b"7 411\n",
        b"mfdial: fault 2 is at the place of an earlier fault\n",
    ),
    (
        &["--vcd"],
        b"7 0\n8 0\n",
        b"mfdial: the calls are of several lines, and a dump has the contact of one\n",
    ),
    // faults of the speed come before those of the calls
    (
        &["--break", "120"],
        b"x",
        b"mfdial: speed: the break is no pulse\n",
    ),
    (
        &["--make", "14"],
        b"7 0",
        b"mfdial: speed: the make is too short, or a pause\n",
    ),
    (
        &["--pause", "20000"],
        b"7 0",
        b"mfdial: speed: the pause is too short, or a time-out\n",
    ),
    (
        &["--seize", "0"],
        b"7 0",
        b"mfdial: speed: the seizing make is 0, or a time-out\n",
    ),
    (
        &["--hang-up", "299"],
        b"7 0",
        b"mfdial: speed: the hang-up is no release, or longer than a day\n",
    ),
    (
        &[],
        b"7 0\n10000 0",
        b"mfdial: text line 2: \"10000\" is no line of 0 to 9999\n",
    ),
    (
        &[],
        b"7 2x",
        b"mfdial: text line 1 has a wrong digit at byte 4: \"x\"\n",
    ),
    (&[], b"\n7", b"mfdial: text line 2 has no digits\n"),
    (
        &["--plan", "10"],
        b"7 2125551",
        b"mfdial: text line 1 has a number that is not complete\n",
    ),
    (
        &["--plan", "7"],
        b"7 00",
        b"mfdial: text line 1 has a number that goes on after it is complete\n",
    ),
    (
        &["none.txt"],
        b"7 0",
        b"mfdial: none.txt: entity not found\n",
    ),
    (
        &["wide.txt"],
        b"7 0",
        b"mfdial: wide.txt: it is UTF-16, and UTF-8 is taken: iconv -f UTF-16 -t UTF-8 makes that of it\n",
    ),
];

// Words that are refused.
const REFUSED: &[Refusal] = &[
    (
        &["--speed", "15"],
        b"mfdial: invalid value '15' for '--speed <N>' [possible values: 10, 20]; mfdial --help says more\n",
    ),
    (
        &["--plan", "8"],
        b"mfdial: invalid value '8' for '--plan <N>' [possible values: 7, 10]; mfdial --help says more\n",
    ),
    (
        &["--break", "x"],
        b"mfdial: invalid value 'x' for '--break <MS>': a whole number is wanted, from 0; mfdial --help says more\n",
    ),
    (
        &["--break", "4294967296"],
        b"mfdial: invalid value '4294967296' for '--break <MS>': 4294967296 is not in 0..=4294967295; mfdial --help says more\n",
    ),
    (
        &["calls.txt", "wide.txt"],
        b"mfdial: there is one word too many, 'wide.txt'; mfdial --help says more\n",
    ),
    (
        &["--fault", "1.1:break=130"],
        b"mfdial: invalid value '1.1:break=130' for '--fault': break, lost and extra are of a pulse, as in 1.3.2:lost; mfdial --help says more\n",
    ),
    (
        &["--fault", "1.1.1:break=0"],
        b"mfdial: invalid value '1.1.1:break=0' for '--fault': a whole number of ms from 1 to 86400000 is wanted after =; mfdial --help says more\n",
    ),
    (
        &["--fault", "1.1.1:lost,"],
        b"mfdial: invalid value '1.1.1:lost,' for '--fault': a place, : and a fault are wanted, as in 1.3.2:lost; mfdial --help says more\n",
    ),
    (
        &["--fault", "1.1.1:lost,1.1:longer,x"],
        b"mfdial: invalid value '1.1:longer' for '--fault': lost, extra, break=MS, pause=MS, flash=MS or preliminary=MS is wanted after :; mfdial --help says more\n",
    ),
    (
        &["--fault", "1.1.1:lost=1"],
        b"mfdial: invalid value '1.1.1:lost=1' for '--fault': lost and extra have no value; mfdial --help says more\n",
    ),
    (
        &["--fault", "1.1:flash"],
        b"mfdial: invalid value '1.1:flash' for '--fault': = and ms are wanted after it, as in 1.3.2:break=130; mfdial --help says more\n",
    ),
    (
        &["--fault", "1..1:lost"],
        b"mfdial: invalid value '1..1:lost' for '--fault': the number of a call, a digit or a pulse is wanted before :, as 1, 1.3 or 1.3.2; mfdial --help says more\n",
    ),
    (
        &["--fault", "1:pause=600"],
        b"mfdial: invalid value '1:pause=600' for '--fault': pause and flash come after a digit, as in 1.3:pause=700; mfdial --help says more\n",
    ),
    (
        &["--fault", "1.1:preliminary=30"],
        b"mfdial: invalid value '1.1:preliminary=30' for '--fault': preliminary comes before a call, as in 1:preliminary=30; mfdial --help says more\n",
    ),
    (
        &["--bounce", "3000"],
        b"mfdial: --bounce wants --vcd; mfdial --help says more\n",
    ),
    (
        &["--vcd", "--bounce", "7"],
        b"mfdial: invalid value '7' for '--bounce <US>': 7 is not in 8..=100000; mfdial --help says more\n",
    ),
    (
        &["--seed", "1"],
        b"mfdial: --seed wants --jitter or --bounce; mfdial --help says more\n",
    ),
    (
        &["--slow", "1001"],
        b"mfdial: invalid value '1001' for '--slow <PERCENT>': 1001 is not in 0..=1000; mfdial --help says more\n",
    ),
    (
        &["--vcd", "--in-turn"],
        b"mfdial: --in-turn and --vcd do not go together; mfdial --help says more\n",
    ),
];

// 1 on line 7.
const SEVEN_ONE: &[u8] = b"line,state,ms\n7,M,500\n7,B,60\n7,M,600\n";

// 212 5551 on line 7.
const SEVEN_DIGITS: &[u8] = b"line,state,ms
7,M,500
7,B,60\n7,M,40\n7,B,60\n7,M,600
7,B,60\n7,M,600
7,B,60\n7,M,40\n7,B,60\n7,M,600
7,B,60\n7,M,40\n7,B,60\n7,M,40\n7,B,60\n7,M,40\n7,B,60\n7,M,40\n7,B,60\n7,M,600
7,B,60\n7,M,40\n7,B,60\n7,M,40\n7,B,60\n7,M,40\n7,B,60\n7,M,40\n7,B,60\n7,M,600
7,B,60\n7,M,40\n7,B,60\n7,M,40\n7,B,60\n7,M,40\n7,B,60\n7,M,40\n7,B,60\n7,M,600
7,B,60\n7,M,600\n";

// The line of rows that could not be written.
const NOT_WRITTEN: &[u8] = b"mfdial: the rows could not be written\n";

#[test]
fn gives_each_status(rt: HostRuntime) -> Result<(), Fail> {
    check_pages(rt.alloc(), &Mfdial, PAGES)?;
    check_faults(rt.alloc(), &Mfdial, FAULTS)?;
    check_refusals(rt.alloc(), &Mfdial, b"7 0", REFUSED)?;
    let calls = b"7 234-5678\n9 0\n";
    let line = b"mfdial: the calls could not be read\n";
    for place in 0..=calls.len() {
        check_reads(rt.alloc(), &Mfdial, &[], calls, &[place], line)?;
    }
    Ok(())
}

#[test]
fn writes_the_beginning_where_the_rows_fail(rt: HostRuntime) -> Result<(), Fail> {
    for room in 0..=SEVEN_DIGITS.len() {
        let mut calls = Halting::new(b"7 212-5551", 4);
        let mut out = Short::new(rt.alloc(), room, Some(ErrorKind::Other));
        out.flush = Some(ErrorKind::Other);
        let wanted = Gives {
            status: 1,
            written: &SEVEN_DIGITS[..room],
            line: NOT_WRITTEN,
        };
        check_streams(rt.alloc(), &Mfdial, &[], &mut calls, &mut out, wanted)?;
    }
    Ok(())
}

// Dials while the rows fail so after 20 bytes, and returns the status of the process and what is told.
fn told_where_rows_fail(alloc: Global, kind: ErrorKind) -> Result<(u8, Vec<u8>), AllocError> {
    let words = words_of(alloc, "mfdial", &[])?;
    let mut calls = b"7 212-5551".as_slice();
    let mut err = Vec::new(alloc);
    let pipe = Pipe::default();
    let mut out = pipe.output(Short::new(alloc, 20, Some(kind)));
    let status = attend::<Asked<'_>, _, _, _, _>(
        alloc,
        &Call {
            program: &PROGRAM,
            words: &words,
            is_typed: false,
            is_shown: false,
        },
        &FILES,
        &mut calls,
        &mut out,
        &mut pipe.errors(&mut err),
    );
    Ok((pipe.status(status), err))
}

#[test]
fn is_silent_where_the_reader_goes_away(rt: HostRuntime) -> Result<(), Fail> {
    let (status, told) = told_where_rows_fail(rt.alloc(), ErrorKind::BrokenPipe)?;
    assert_eq!(rt; status, READER_GONE);
    assert!(rt; told.is_empty());
    let (status, told) = told_where_rows_fail(rt.alloc(), ErrorKind::StorageFull)?;
    assert_eq!(rt; status, 1);
    assert!(rt; told.as_slice() == NOT_WRITTEN);
    Ok(())
}

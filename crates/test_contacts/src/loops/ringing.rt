// A line that rings, is answered, and calls.
use crate::loops::attending::Mfloop;
use std::alloc::Global;
use std::test::Fail;
use test_kit::{Gives, check_status};

// A level for so many samples of 1 ms.
fn hold(samples: &mut Vec<u8>, level: u8, ms: u32) -> Result<(), Fail> {
    for _ms in 0..ms {
        samples.push(level)?;
    }
    Ok(())
}

// A burst of 2 s: makes and breaks of so many ms.
fn ring(samples: &mut Vec<u8>, make: u32, rest: u32, periods: u32) -> Result<(), Fail> {
    for _period in 0..periods {
        hold(samples, 1, make)?;
        hold(samples, 0, rest)?;
    }
    Ok(())
}

// A call that dials 1, with a bounce of the hook at its end, which is a break of 640 ms.
fn call(samples: &mut Vec<u8>) -> Result<(), Fail> {
    hold(samples, 1, 500)?;
    hold(samples, 0, 60)?;
    hold(samples, 1, 600)?;
    hold(samples, 0, 30)?;
    hold(samples, 1, 3)?;
    hold(samples, 0, 607)
}

// A night: nobody answers three bursts of 20 Hz, the line calls, somebody answers in the pause after the second of two
// bursts of 22 Hz, talks, presses the hook for 200 ms and talks on, and the line calls again; then somebody answers in
// the middle of a burst of 18 Hz, and the line calls a last time.
fn night(alloc: Global) -> Result<Vec<u8>, Fail> {
    let mut samples = Vec::new(alloc);
    hold(&mut samples, 0, 1_000)?;
    for _burst in 0..3 {
        ring(&mut samples, 25, 25, 40)?;
        hold(&mut samples, 0, 4_000)?;
    }
    hold(&mut samples, 0, 1_000)?;
    call(&mut samples)?;
    ring(&mut samples, 18, 27, 44)?;
    hold(&mut samples, 0, 4_000)?;
    ring(&mut samples, 18, 27, 44)?;
    hold(&mut samples, 0, 2_000)?;
    hold(&mut samples, 1, 5_000)?;
    hold(&mut samples, 0, 200)?;
    hold(&mut samples, 1, 3_000)?;
    hold(&mut samples, 0, 1_000)?;
    call(&mut samples)?;
    ring(&mut samples, 30, 25, 20)?;
    hold(&mut samples, 1, 25_000)?;
    hold(&mut samples, 0, 700)?;
    call(&mut samples)?;
    Ok(samples)
}

const WORDS: &[&[&str]] = &[
    &[
        "--wire",
        "7=0",
        "--format",
        "bits",
        "--rate",
        "1000",
        "--ringing",
    ],
    &[
        "--wire",
        "7=0,ringing",
        "--format",
        "bits",
        "--rate",
        "1000",
    ],
    &[
        "--wire",
        "7=0,ringing,seize=300",
        "--format",
        "bits",
        "--rate",
        "1000",
        "--seize",
        "20",
    ],
];

// 1,000 ms, three bursts of 2,000 with 4,000 after each, and 1,000; after the first call its 640, two bursts of 44
// periods of 45 ms, 4,000 between them, 2,000 after them, and 5,000, 200, 3,000 and 1,000; after the second one its 640,
// 20 periods of 55 ms, 25,000 and 700.
const ROWS: &[u8] = b"line,state,ms\n7,B,20000\n7,M,500\n7,B,60\n7,M,600\n\
7,B,19800\n7,M,500\n7,B,60\n7,M,600\n\
7,B,27440\n7,M,500\n7,B,60\n7,M,600\n7,B,640\n";

#[test]
fn a_night_gives_its_calls(rt: HostRuntime) -> Result<(), Fail> {
    let samples = night(rt.alloc())?;
    for words in WORDS {
        let wanted = Gives {
            status: 0,
            written: ROWS,
            line: b"line 7: calls that answer ringing, left out: 2\n",
        };
        check_status(rt.alloc(), &Mfloop, words, &samples, wanted)?;
    }
    Ok(())
}

// Makes and breaks of 30 periods, and the row that is written up to the call after it: 1,000 ms, the burst, 2,000, an
// answer of 5,000, and 1,000.
const BELLS: &[(u32, u32, &[u8])] = &[
    // 15 Hz, and 25 Hz
    (33, 34, b"7,B,11010\n"),
    (20, 20, b"7,B,10200\n"),
    // both halves of 16 2/3, 25 and 33 1/3 Hz
    (16, 14, b"7,B,9900\n"),
    (12, 8, b"7,B,9600\n"),
    (9, 6, b"7,B,9450\n"),
];

#[test]
fn each_bell_is_answered(rt: HostRuntime) -> Result<(), Fail> {
    for (make, rest, row) in BELLS {
        let mut samples = Vec::new(rt.alloc());
        hold(&mut samples, 0, 1_000)?;
        ring(&mut samples, *make, *rest, 30)?;
        hold(&mut samples, 0, 2_000)?;
        hold(&mut samples, 1, 5_000)?;
        hold(&mut samples, 0, 1_000)?;
        call(&mut samples)?;
        let mut rows = Vec::new(rt.alloc());
        rows.extend_from_slice(b"line,state,ms\n")?;
        rows.extend_from_slice(row)?;
        rows.extend_from_slice(b"7,M,500\n7,B,60\n7,M,600\n7,B,640\n")?;
        let wanted = Gives {
            status: 0,
            written: &rows,
            line: b"line 7: calls that answer ringing, left out: 1\n",
        };
        check_status(rt.alloc(), &Mfloop, WORDS[0], &samples, wanted)?;
    }
    Ok(())
}

// What a recording tells of a wire before its first edge: the level that this edge leaves.
use crate::loops::attending::Mfloop;
use std::test::Fail;
use test_kit::{Gives, Page, check_pieces, check_status};

// A dial rests closed, and dials 2. The last edge is one of another line.
const RESTS_CLOSED: &[u8] = b"1.000\tfalling\tgpiochip0 17\n1.061\trising\tgpiochip0 17\n\
1.100\tfalling\tgpiochip0 17\n1.161\trising\tgpiochip0 17\n2.000\trising\tgpiochip0 4\n";

// The same by a pin that is low while the contact is closed.
const RESTS_LOW: &[u8] = b"1.000\trising\tgpiochip0 17\n1.061\tfalling\tgpiochip0 17\n\
1.100\trising\tgpiochip0 17\n1.161\tfalling\tgpiochip0 17\n2.000\trising\tgpiochip0 4\n";

// A line that is on hook is lifted, and dials 1.
const RESTS_OPEN: &[u8] = b"1.000\trising\tgpiochip0 17\n1.500\tfalling\tgpiochip0 17\n\
1.561\trising\tgpiochip0 17\n2.000\tfalling\tgpiochip0 4\n";

// Another line is there 2 s before the first edge of a dial that rests closed.
const LATER: &[u8] = b"1.000\trising\tgpiochip0 4\n3.000\tfalling\tgpiochip0 17\n\
3.061\trising\tgpiochip0 17\n4.000\tfalling\tgpiochip0 4\n";

const TWO: &[u8] = b"line,state,ms\n7,M,5\n7,B,61\n7,M,39\n7,B,61\n7,M,839\n";

// Words, a recording, and its rows.
const EDGES: &[Page] = &[
    // nothing is known of how long it rests: a make is as long as it takes to settle, and to seize
    (&["--wire", "7=17"], RESTS_CLOSED, TWO),
    (&["--wire", "7=17,inverted"], RESTS_LOW, TWO),
    (
        &["--wire", "7=17,seize=150"],
        RESTS_CLOSED,
        b"line,state,ms\n7,M,150\n7,B,61\n7,M,39\n7,B,61\n7,M,839\n",
    ),
    (
        &["--wire", "7=17", "--settle", "0"],
        RESTS_CLOSED,
        b"line,state,ms\n7,M,1\n7,B,61\n7,M,39\n7,B,61\n7,M,839\n",
    ),
    // a line on hook begins with its call
    (
        &["--wire", "7=17"],
        RESTS_OPEN,
        b"line,state,ms\n7,M,500\n7,B,61\n7,M,439\n",
    ),
    // it is known from the first edge of any line on
    (
        &["--wire", "7=17"],
        LATER,
        b"line,state,ms\n7,M,2000\n7,B,61\n7,M,939\n",
    ),
    (
        &["--wire", "7=17,inverted"],
        LATER,
        b"line,state,ms\n7,B,2000\n7,M,61\n7,B,939\n",
    ),
];

#[test]
fn tells_the_level_before_the_first_edge(rt: HostRuntime) -> Result<(), Fail> {
    for (words, recording, rows) in EDGES {
        let (page, steps) = (Gives::page(rows), [1, 8_192]);
        check_pieces(rt.alloc(), &Mfloop, words, recording, &steps, page)?;
    }
    Ok(())
}

// Samples of 16 bits, 5 ms each: at rest, a spike down and one up.
const DOWN_UP: &[u8] = b"\0\0\0\0\0\0\0\0\x00\x80\0\0\0\0\0\0\xff\x7f\0\0";

// The input settles: its first samples are high, and then at rest.
const SETTLES: &[u8] = b"\xff\x7f\xff\x7f\0\0\x00\x80\0\0\0\0";

// The first spike comes with the second sample.
const AT_ONCE: &[u8] = b"\0\0\x00\x80\0\0";

// A steady level that changes is an edge too.
const STEADY: &[u8] = b"\x00\x80\x00\x80\xff\x7f\xff\x7f\xff\x7f";

// Words after the form, samples, and their rows.
const SPIKES: &[(&str, &[u8], &[u8])] = &[
    ("7=1", DOWN_UP, b"line,state,ms\n7,M,20\n7,B,20\n7,M,10\n"),
    (
        "7=1,inverted",
        DOWN_UP,
        b"line,state,ms\n7,B,20\n7,M,20\n7,B,10\n",
    ),
    ("7=1", SETTLES, b"line,state,ms\n7,M,15\n7,B,15\n"),
    ("7=1", AT_ONCE, b"line,state,ms\n7,M,5\n7,B,10\n"),
    (
        "7=1,seize=150",
        AT_ONCE,
        b"line,state,ms\n7,M,150\n7,B,10\n",
    ),
    ("7=1", STEADY, b"line,state,ms\n7,B,10\n7,M,15\n"),
    // no spike: nothing is known, and nothing is written
    ("7=1,inverted", b"\xff\x7f\xff\x7f", b"line,state,ms\n"),
];

#[test]
fn tells_the_level_before_the_first_spike(rt: HostRuntime) -> Result<(), Fail> {
    for (wire, recording, rows) in SPIKES {
        let words = ["--format", "s16", "--rate", "200", "--wire", *wire];
        let (page, steps) = (Gives::page(rows), [1, 3, 8_192]);
        check_pieces(rt.alloc(), &Mfloop, &words, recording, &steps, page)?;
    }
    Ok(())
}

// Two channels of eight bits, 200 samples of each a second: the second one has no spike.
const SILENT: &[u8] = b"RIFF\x2c\x00\x00\x00WAVE\
fmt \x10\x00\x00\x00\x01\x00\x02\x00\xc8\x00\x00\x00\x90\x01\x00\x00\x02\x00\x08\x00\
data\x08\x00\x00\x00\x80\x80\xff\x80\x80\x80\x80\x80";

#[test]
fn writes_nothing_of_a_silent_channel(rt: HostRuntime) -> Result<(), Fail> {
    let page = Gives::page(b"line,state,ms\n7,B,5\n7,M,15\n");
    for wire in ["8=2", "8=2,inverted"] {
        let words = ["--wire", "7=1", "--wire", wire];
        check_status(rt.alloc(), &Mfloop, &words, SILENT, page)?;
    }
    Ok(())
}

// Edges of gpiomon that are lost.
use crate::loops::attending::Mfloop;
use std::test::Fail;
use test_kit::{Case, check_cases};

// An edge is lost between 1.561 and 1.600 s, and one between 2.000 and 2.100 s, of line 17 alone.
const LOST: &[u8] =
    b"1.000\trising\tgpiochip0 17\n1.100\trising\tgpiochip0 4\n1.500\tfalling\tgpiochip0 17\n\
1.561\trising\tgpiochip0 17\n1.600\trising\tgpiochip0 17\n2.000\tfalling\tgpiochip0 17\n\
2.100\tfalling\tgpiochip0 17\n3.000\trising\tgpiochip0 17\n";

const CASES: &[Case] = &[
    // the second edge of one direction changes nothing
    (
        &["--wire", "7=17", "--lossy"],
        LOST,
        0,
        b"line,state,ms\n7,M,500\n7,B,61\n7,M,439\n7,B,1000\n",
        b"line 7: lost edges: 2\n",
    ),
    // by line, after the bounces; line 8 loses none
    (
        &[
            "--wire",
            "7=17,inverted",
            "--wire",
            "8=4",
            "--lossy",
            "--bounces",
            "--format",
            "gpiomon",
        ],
        LOST,
        0,
        b"line,state,ms\n7,M,5\n8,B,100\n7,B,500\n7,M,61\n7,B,439\n7,M,1000\n8,M,1900\n",
        b"line 7: 0 bounces, the longest 0 us\nline 7: lost edges: 2\nline 8: 0 bounces, the longest 0 us\n",
    ),
    // none is lost
    (
        &["--wire", "8=4", "--lossy"],
        LOST,
        0,
        b"line,state,ms\n8,B,100\n8,M,1900\n",
        b"",
    ),
];

// Without --lossy the first one is refused, and so is a time that falls with it, or another form.
const REFUSED: &[Case] = &[
    (
        &["--wire", "7=17"],
        LOST,
        1,
        b"line,state,ms\n7,M,500\n",
        b"mfloop: text line 5: an edge is lost: two of one direction follow each other: 1.600.rising.gpiochip0 17\n",
    ),
    (
        &["--wire", "7=17", "--lossy"],
        b"1.000\trising\tgpiochip0 17\n0.900\trising\tgpiochip0 17\n",
        1,
        b"line,state,ms\n",
        b"mfloop: text line 2: the time is before the last one: 0.900.rising.gpiochip0 17\n",
    ),
    (
        &["--wire", "7=1", "--lossy"],
        b"0,0\n0.010,1\n",
        1,
        b"line,state,ms\n",
        b"mfloop: text line 1: a line of gpiomon was wanted: 0,0\n",
    ),
];

#[test]
fn tells_the_lost_edges(rt: HostRuntime) -> Result<(), Fail> {
    check_cases(rt.alloc(), &Mfloop, CASES)?;
    check_cases(rt.alloc(), &Mfloop, REFUSED)
}

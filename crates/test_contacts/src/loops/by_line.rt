// Lines that are listened to in different ways.
use crate::loops::attending::Mfloop;
use std::test::Fail;
use test_kit::{Page, check_pages};

const CASES: &[Page] = &[
    // a make of 3 ms is one of line 7, and a bounce of line 8, whose wire is inverted
    (
        &["--wire", "7=1,settle=0", "--wire", "8=2,inverted"],
        b"0,0,1\n0.100,1,0\n0.103,0,1\n0.200,1,0\n0.300,1,0\n",
        b"line,state,ms\n7,B,100\n7,M,3\n7,B,97\n8,B,200\n7,M,100\n8,M,100\n",
    ),
    // what a line does not say of itself, the command says
    (
        &["--settle", "0", "--wire", "7=1,settle=5", "--wire", "8=2"],
        b"0,0,0\n0.100,1,1\n0.103,0,0\n0.200,0,0\n",
        b"line,state,ms\n8,B,100\n8,M,3\n7,B,200\n8,B,97\n",
    ),
    // a line that rings, beside one that does not
    (
        &["--wire", "7=1", "--wire", "8=2,seize=150"],
        b"0,0,0\n1.000,1,1\n1.100,0,0\n2.000,0,0\n",
        b"line,state,ms\n7,B,1000\n7,M,100\n7,B,900\n8,B,2000\n",
    ),
    // all three at once, in another order; 4294967295 ms are the most
    (
        &[
            "--wire",
            "7=1,seize=150,inverted,settle=4",
            "--wire",
            "8=2,settle=4294967295",
        ],
        b"0,1,0\n1.000,0,1\n1.004,1,0\n2.000,0,0\n2.150,1,0\n2.500,1,0\n",
        b"line,state,ms\n7,B,2000\n7,M,150\n7,B,350\n8,B,2500\n",
    ),
    // a name goes up to the first comma, and may have a = in it
    (
        &["--wire", "7=a=b,inverted"],
        b"Time [s],a=b\n0,1\n1,0\n2,0\n",
        b"line,state,ms\n7,B,1000\n7,M,1000\n",
    ),
];

#[test]
fn listens_to_each_line_in_its_own_way(rt: HostRuntime) -> Result<(), Fail> {
    check_pages(rt.alloc(), &Mfloop, CASES)
}

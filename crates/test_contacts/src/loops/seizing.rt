// Makes that are too short to seize.
use crate::loops::attending::Mfloop;
use std::alloc::Global;
use std::test::Fail;
use test_kit::{Gives, Page, check_pages, check_status};

const CASES: &[Page] = &[
    // on hook a make of 149 ms is a break, and one of 150 ms seizes
    (
        &["--wire", "7=1", "--seize", "150"],
        b"0,0\n1.000,1\n1.149,0\n2.000,1\n2.150,0\n3.000,0\n",
        b"line,state,ms\n7,B,2000\n7,M,150\n7,B,850\n",
    ),
    // off hook a shorter one stays, as between two pulses
    (
        &["--wire", "7=1", "--seize", "150"],
        b"0,1\n0.500,0\n0.560,1\n0.600,0\n0.660,1\n1.260,0\n1.600,0\n",
        b"line,state,ms\n7,M,500\n7,B,60\n7,M,40\n7,B,60\n7,M,600\n7,B,340\n",
    ),
    // a break of 299 ms, which does not release, and one of 300 ms, which does
    (
        &["--wire", "7=1", "--seize", "150"],
        b"0,1\n0.500,0\n0.799,1\n0.839,0\n1.000,0\n",
        b"line,state,ms\n7,M,500\n7,B,299\n7,M,40\n7,B,161\n",
    ),
    (
        &["--wire", "7=1", "--seize", "150"],
        b"0,1\n0.500,0\n0.800,1\n0.840,0\n1.000,0\n",
        b"line,state,ms\n7,M,500\n7,B,500\n",
    ),
    // by a table whose release limit is 200 ms
    (
        &["--wire", "7=1", "--seize", "150", "--table", "fast.toml"],
        b"0,1\n0.500,0\n0.700,1\n0.740,0\n1.000,0\n",
        b"[limits]\nrelease = 200\n---\nline,state,ms\n7,M,500\n7,B,500\n",
    ),
    // the last make is too short so far
    (
        &["--wire", "7=1", "--seize", "150"],
        b"0,0\n1.000,1\n1.100,1\n",
        b"line,state,ms\n7,B,1100\n",
    ),
    // in parts of 20 ms
    (
        &[
            "--wire", "7=0", "--format", "bits", "--rate", "100", "--tick", "20", "--seize", "30",
        ],
        b"\x00\x00\x00\x01\x01\x00\x00",
        b"line,state,ms\n7,B,30\n7,B,20\n7,B,20\n",
    ),
];

// Samples of 25 ms each: 1 s on hook, ringing of 20 Hz for 2 s, 4 s on hook, and then a call that dials 1.
fn ringing(alloc: Global) -> Result<Vec<u8>, Fail> {
    let mut samples = Vec::new(alloc);
    samples.extend_from_slice(&[0; 40])?;
    for _ in 0..40 {
        samples.extend_from_slice(b"\x01\x00")?;
    }
    samples.extend_from_slice(&[0; 160])?;
    samples.extend_from_slice(&[1; 20])?;
    samples.extend_from_slice(&[0; 2])?;
    samples.extend_from_slice(&[1; 24])?;
    samples.extend_from_slice(&[0; 16])?;
    Ok(samples)
}

#[test]
fn seizes_and_passes_over_ringing(rt: HostRuntime) -> Result<(), Fail> {
    check_pages(rt.alloc(), &Mfloop, CASES)?;
    let words = [
        "--wire", "7=0", "--format", "bits", "--rate", "40", "--seize", "150",
    ];
    let rows = b"line,state,ms\n7,B,7000\n7,M,500\n7,B,50\n7,M,600\n7,B,400\n";
    let samples = ringing(rt.alloc())?;
    check_status(rt.alloc(), &Mfloop, &words, &samples, Gives::page(rows))
}

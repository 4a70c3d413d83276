// A dial of 61.5 % and ten pulses a second reads so wherever its edges lie between two milliseconds.
use crate::bench::attending::{BELL, check_lines};
use std::alloc::{AllocError, Global};
use std::test::Fail;

// The same at each phase: samples of 50 us, and twenty of them are a millisecond.
const LINES: &str =
    "0007      0      10   10.0     61.5         61.5         38.5      0.0        0.0     GOOD
0007  hung up
0007  digits 1, spoiled 0; p/s 10.0 (10.0); % break 61.5 (61.5); bounce 0.0 ms; GOOD 1
";

// Adds an edge at so many us.
fn push_edge(text: &mut String, micros: u64, level: u64) -> Result<(), AllocError> {
    let seconds = micros / 1_000_000;
    let rest = micros % 1_000_000;
    write!(text, "{seconds}.{rest:06},{level}\n")
}

// Ten pulses that begin so many samples after a whole millisecond.
fn recording_at(alloc: Global, phase: u64) -> Result<String, AllocError> {
    let first = 400_000 + 50 * (phase % 20);
    let mut text = String::new(alloc);
    push_edge(&mut text, 0, 1)?;
    for pulse in 0..10u64 {
        let begins = first + 100_000 * (pulse % 10);
        push_edge(&mut text, begins, 0)?;
        push_edge(&mut text, begins + 61_500, 1)?;
    }
    push_edge(&mut text, first + 2_000_000, 0)?;
    push_edge(&mut text, first + 2_400_000, 0)?;
    Ok(text)
}

#[test]
fn reads_the_same_at_each_phase(rt: HostRuntime) -> Result<(), Fail> {
    for phase in 0..20u64 {
        let text = recording_at(rt.alloc(), phase)?;
        let words = ["--wire", "7=1"];
        check_lines(rt.alloc(), &words, text.as_bytes(), BELL, LINES)?;
    }
    Ok(())
}

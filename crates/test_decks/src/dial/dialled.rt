// The rows of calls, as text.
ghost use Rattle.xb_model.specs.LawfulLimits.{standard_limits};
ghost use Rattle.xb_calls.specs.Speeds.{Fits};

use std::alloc::Global;
use std::process::Abort;
use std::test::Fail;
use xb_calls::{Call, RowOrder, Speed, calls_of_text, rows_of_calls};
use xb_model::{Digit, LineNo};
use xb_rows::{read_rows, text_of_rows};

// Line 9 dials 21 and then 1, line 4 dials 3: no numbers, but short.
const CALLS: &[u8] = b"9 21\n4 3\n9 1\n";

const BY_LINE: &str = "line,state,ms
4,M,500\n4,B,60\n4,M,40\n4,B,60\n4,M,40\n4,B,60\n4,M,600
9,M,500\n9,B,60\n9,M,40\n9,B,60\n9,M,600\n9,B,60\n9,M,600
9,B,400\n9,M,500\n9,B,60\n9,M,600\n";

const IN_TURN: &str = "line,state,ms
4,M,500\n9,M,500\n4,B,60\n9,B,60\n4,M,40\n9,M,40\n4,B,60\n9,B,60\n4,M,40\n9,M,600\n4,B,60\n9,B,60
4,M,600\n9,M,600\n9,B,400\n9,M,500\n9,B,60\n9,M,600\n";

// The operator at 20 pulses a second: ten pulses.
const OPERATOR: &str = "line,state,ms
0,M,500\n0,B,30\n0,M,20\n0,B,30\n0,M,20\n0,B,30\n0,M,20\n0,B,30\n0,M,20\n0,B,30\n0,M,20
0,B,30\n0,M,20\n0,B,30\n0,M,20\n0,B,30\n0,M,20\n0,B,30\n0,M,20\n0,B,30\n0,M,600\n";

// Checks the text of the rows that dial calls, and that the rows are read of it.
fn check_rows(
    rt: &impl Abort,
    alloc: Global,
    calls: &[Call],
    speed: Speed,
    order: RowOrder,
    want: &str,
) -> Result<(), Fail>
    requires { Fits standard_limits speed }
{
    let rows = rows_of_calls(alloc, calls, speed, order)?;
    let text = text_of_rows(alloc, &rows)?;
    assert_eq!(rt; text.as_str(), want);
    let mut reader = text.as_bytes();
    let read = read_rows(alloc, &mut reader)?;
    assert!(rt; read.as_slice() == rows.as_slice());
    Ok(())
}

#[test]
fn dials_in_both_orders(rt: HostRuntime) -> Result<(), Fail> {
    let calls = calls_of_text(rt.alloc(), CALLS, None)?;
    for (order, want) in [(RowOrder::ByLine, BY_LINE), (RowOrder::InTurn, IN_TURN)] {
        check_rows(&rt, rt.alloc(), &calls, Speed::ten(), order, want)?;
        check_rows(&rt, rt.alloc(), &[], Speed::ten(), order, "line,state,ms\n")?;
    }
    Ok(())
}

#[test]
fn dials_the_operator(rt: HostRuntime) -> Result<(), Fail> {
    let mut digits = Vec::new(rt.alloc());
    digits.push(Digit::default())?;
    let mut calls = Vec::new(rt.alloc());
    calls.push(Call::new(LineNo::default(), digits))?;
    for order in [RowOrder::ByLine, RowOrder::InTurn] {
        check_rows(&rt, rt.alloc(), &calls, Speed::twenty(), order, OPERATOR)?;
    }
    Ok(())
}

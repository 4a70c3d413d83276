// Sources that stop with a fault.
ghost use Rattle.std.specs.Prelude.{◌≤◌};

use crate::bank::calls::{Calls, calls_of, run_on};
use crate::bank::sources::Counted;
use std::alloc::Global;
use std::process::Abort;
use std::sync::Wait;
use std::sync::atomic::{AtomicU64, Ordering};
use std::test::Fail;
use std::thread::Threads;
use std::time::Clock;
use test_kit::attempts::SEVEN_DIGITS;
use test_kit::sources::Stopping;
use xb_model::RowFault;
use xb_ring::{MOST_BRANCHES, NoGate};
use xb_run::BankFault;

// A source that stops so after all rows gives this fault in place of tapes, and was asked up to its stop.
fn check_stop<R: Threads + Wait + Clock + Abort + Sync>(
    rt: &R,
    alloc: Global,
    calls: &Calls,
    senders: usize,
    stop: RowFault,
    wanted: BankFault,
)
    requires senders { (1 ≤ senders) × (senders ≤ MOST_BRANCHES) }
{
    let asked = AtomicU64::new(0);
    let source = Counted {
        source: Stopping {
            rows: &calls.rows,
            stop: Some(stop),
        },
        calls: &asked,
    };
    let fault = run_on(rt, alloc, source, &calls.table, senders, 2, &NoGate).err();
    assert!(rt; fault == Some(wanted), "{senders} senders");
    assert_eq!(rt; asked.load(Ordering::SeqCst), 72, "{senders} senders");
}

#[test]
fn a_fault_gives_no_tapes(rt: HostRuntime) -> Result<(), Fail> {
    let calls = calls_of(rt.alloc(), &SEVEN_DIGITS)?;
    for senders in [1, 3] {
        let told = BankFault::Rows(RowFault::Line(72));
        check_stop(&rt, rt.alloc(), &calls, senders, RowFault::Line(72), told);
        let told = BankFault::NoMemory;
        check_stop(&rt, rt.alloc(), &calls, senders, RowFault::NoMemory, told);
    }
    Ok(())
}

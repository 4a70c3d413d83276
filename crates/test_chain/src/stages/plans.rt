// Plans and limits of tables.
use crate::stages::tables::{check_fault, check_route, table_of};
use std::test::Fail;
use test_kit::attempts::{LONGER_CODE, PLAN_TEN, SHORTER_CODE};
use test_kit::decks::joined;
use xb_model::{Limits, Plan};
use xb_routes::RouteFault;

// Two codes of which one begins the other: the longer decides, whichever stands first.
#[test]
fn the_longest_code_decides(rt: HostRuntime) -> Result<(), Fail> {
    for (first, second) in [(LONGER_CODE, SHORTER_CODE), (SHORTER_CODE, LONGER_CODE)] {
        let text = joined(rt.alloc(), &[PLAN_TEN, first, second])?;
        check_route(&rt, rt.alloc(), &text, "2125551234", (40, 3, ""))?;
        check_route(&rt, rt.alloc(), &text, "2126661234", (41, 0, ""))?;
    }
    Ok(())
}

// The lines of the table `limits`, and the limits: pulse_min, pulse_max, make_min, pause, release and
// timeout.
const LIMITS: &[(&str, [u32; 6])] = &[
    ("", [20, 119, 15, 180, 300, 20_000]),
    ("release = 250", [20, 119, 15, 180, 250, 20_000]),
    (
        "timeout = 6\nrelease = 5\npause = 4\nmake_min = 3\npulse_max = 2\npulse_min = 1",
        [1, 2, 3, 4, 5, 6],
    ),
];

// Limits of a wrong form, and those that two keys make wrong.
const FAULTS: &[(&str, RouteFault)] = &[
    ("plan = 7.0", RouteFault::Plan),
    ("plan = 8\n[limits]\npulse_min = 120", RouteFault::Plan),
    ("limits = 3", RouteFault::Limits(0)),
    ("[limits]\npause = \"x\"", RouteFault::Limits(4)),
    ("[limits]\nmake_min = 1.0", RouteFault::Limits(3)),
    (
        "[limits]\npulse_max = 0\npulse_min = 0",
        RouteFault::Limits(1),
    ),
    (
        "[limits]\npulse_min = 120\ntimeout = 0",
        RouteFault::Limits(6),
    ),
    (
        "[limits]\nmake_min = 181\npulse_max = 300",
        RouteFault::Limits(8),
    ),
];

#[test]
fn plans_and_limits(rt: HostRuntime) -> Result<(), Fail> {
    let table = table_of(&rt, rt.alloc(), "plan = 10\nname = \"office\"");
    assert_eq!(rt; table.plan(), Plan::Ten);
    for (lines, values) in LIMITS {
        let text = joined(rt.alloc(), &["[limits]\n", lines, "\n"])?;
        let limits = table_of(&rt, rt.alloc(), &text).limits();
        let held = [
            limits.pulse_min,
            limits.pulse_max,
            limits.make_min,
            limits.pause,
            limits.release,
            limits.timeout,
        ];
        assert_eq!(rt; held, *values, "of {lines}");
    }
    for (text, fault) in FAULTS {
        check_fault(&rt, rt.alloc(), text, *fault);
    }
    Ok(())
}

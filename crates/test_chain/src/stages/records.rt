// Records, and the signals that they give.
use std::alloc::Global;
use std::process::Abort;
use std::test::Fail;
use test_kit::pulses::{in_turn, rows_of};
use xb_model::Signal::{Close, Digit, Release, Seize, TimeOut};
use xb_model::{GREATEST_LIMIT, Limits, On, Row, Signal, image_of};
use xb_pulse::Pulse;

// The line of the records that have it to themselves.
const LINE: u16 = 5;

// Each run cut into rows of 1 ms.
fn cut(alloc: Global, rows: &[Row]) -> Result<Vec<Row>, Fail> {
    let mut all = Vec::new(alloc);
    for row in rows {
        let each = Row::new(row.line(), row.contact(), row.ms().min(1)).ok_or("a row")?;
        for _row in 0..row.ms().max(1) {
            all.push(each)?;
        }
    }
    Ok(all)
}

// What is sent on a line.
fn on_line(alloc: Global, number: u16, sent: &[On<Signal>]) -> Result<Vec<Signal>, Fail> {
    let mut signals = Vec::new(alloc);
    for item in sent {
        if item.line.get() == number {
            signals.push(item.what)?;
        }
    }
    Ok(signals)
}

// A case: its name, its record, and the signals that this gives.
type Case<'a> = (&'a str, &'a str, &'a [Signal]);

// Checks what rows of the line give, and that all of it is on the line.
fn check_rows(
    rt: &impl Abort,
    alloc: Global,
    limits: Limits,
    rows: Vec<Row>,
    case: (&str, &[Signal]),
) -> Result<(), Fail> {
    let (name, want) = case;
    let sent = image_of(alloc, &Pulse::new(limits), rows)?;
    let signals = on_line(alloc, LINE, &sent)?;
    assert_eq!(rt; signals.as_slice(), want, "{name}");
    assert_eq!(rt; sent.len(), signals.len(), "{name}: on its line");
    Ok(())
}

// Checks what a record gives.
fn check(rt: &impl Abort, alloc: Global, limits: Limits, case: Case) -> Result<(), Fail> {
    let (name, pieces, want) = case;
    let rows = rows_of(alloc, LINE, pieces)?;
    check_rows(rt, alloc, limits, rows, (name, want))
}

// Checks what a record gives whose runs are cut into rows of 1 ms.
fn check_cut(rt: &impl Abort, alloc: Global, limits: Limits, case: Case) -> Result<(), Fail> {
    let (name, pieces, want) = case;
    let rows = cut(alloc, &rows_of(alloc, LINE, pieces)?)?;
    check_rows(rt, alloc, limits, rows, (name, want))
}

// Records that are judged by the standard limits, and the signals that they give.
const RECORDS: [Case<'static>; 14] = [
    ("a digit", "M500 #2 C", &[Seize, Digit(2, false), Close]),
    (
        "a break under the shortest pulse",
        "M500 B19 M600 C",
        &[Seize, Digit(1, true), Close],
    ),
    (
        "a release",
        "M500 B300 M600 C",
        &[Seize, Release, Seize, Close],
    ),
    (
        "a release inside a train",
        "M500 B60 M40 B400 C",
        &[Seize, Release, Close],
    ),
    (
        "eleven pulses",
        "M500 *11/600 C",
        &[Seize, Digit(11, false), Close],
    ),
    (
        "fourteen pulses",
        "M500 *14/600 C",
        &[Seize, Digit(11, false), Close],
    ),
    (
        "256 pulses: the count stays at eleven",
        "M500 *256/600 C",
        &[Seize, Digit(11, false), Close],
    ),
    (
        "a time-out after a digit, and pulses after it",
        "M500 B60 M20000 #3 B400 C",
        &[Seize, Digit(1, false), TimeOut, Release, Close],
    ),
    (
        "a time-out at the seizure",
        "M25000 #3 C",
        &[Seize, TimeOut, Close],
    ),
    (
        "a time-out in two rows",
        "M10000 M10000 C",
        &[Seize, TimeOut, Close],
    ),
    (
        "idle time, and a make of no length",
        "B5000 M0 B5000 C",
        &[Close],
    ),
    (
        "a pause in two rows, and a train that nothing ends",
        "M500 B60 M100 M80 B60 M179 C",
        &[Seize, Digit(1, false), Close],
    ),
    (
        "a break and a make out of their limits",
        "M500 B150 M10 B60 M600 C",
        &[Seize, Digit(2, true), Close],
    ),
    (
        "a release in two rows",
        "M500 B150 B150 M1 C",
        &[Seize, Release, Seize, Close],
    ),
];

#[test]
fn records_whole_and_cut_into_rows_of_1_ms(rt: HostRuntime) -> Result<(), Fail> {
    for case in RECORDS {
        check(&rt, rt.alloc(), Limits::standard(), case)?;
        check_cut(&rt, rt.alloc(), Limits::standard(), case)?;
    }
    Ok(())
}

// Records that are judged by the greatest release and time-out.
const RECORDS_AT_GREATEST_LIMITS: [Case<'static>; 6] = [
    (
        "a break under the release",
        "M500 B999999 M600 C",
        &[Seize, Digit(1, true), Close],
    ),
    (
        "a break of the release",
        "M500 B1000000 M600 C",
        &[Seize, Release, Seize, Close],
    ),
    (
        "a break of the release in two rows",
        "M500 B999999 B1 M600 C",
        &[Seize, Release, Seize, Close],
    ),
    ("a make under the time-out", "M999999 C", &[Seize, Close]),
    (
        "a make of the time-out",
        "M1000000 C",
        &[Seize, TimeOut, Close],
    ),
    (
        "a make of the time-out in two rows",
        "M999999 M1 C",
        &[Seize, TimeOut, Close],
    ),
];

// Limits of a fast dial, and an early time-out.
const FAST: Limits = Limits {
    pulse_min: 10,
    pulse_max: 60,
    make_min: 8,
    pause: 100,
    release: 200,
    timeout: 1_000,
};

// The least lawful limits.
const LEAST: Limits = Limits {
    pulse_min: 1,
    pulse_max: 1,
    make_min: 1,
    pause: 1,
    release: 2,
    timeout: 2,
};

// Limits of their own, and records whose runs reach each exactly, or miss it by 1 ms.
const RECORDS_AT_OWN_LIMITS: [(Limits, Case<'static>); 7] = [
    (
        FAST,
        (
            "the shortest pulse, and a shorter break",
            "M50 B10 M100 B9 M100 C",
            &[Seize, Digit(1, false), Digit(1, true), Close],
        ),
    ),
    (
        FAST,
        (
            "the longest pulse, and a longer break",
            "M50 B60 M100 B61 M100 C",
            &[Seize, Digit(1, false), Digit(1, true), Close],
        ),
    ),
    (
        FAST,
        (
            "the shortest inner make, and a shorter one",
            "M50 B30 M8 B30 M100 B30 M7 B30 M100 C",
            &[Seize, Digit(2, false), Digit(2, true), Close],
        ),
    ),
    (
        FAST,
        (
            "a make under the pause, and the pause",
            "M50 B30 M99 B30 M100 C",
            &[Seize, Digit(2, false), Close],
        ),
    ),
    (
        FAST,
        (
            "a break under the release, and the release",
            "M50 B199 M100 B200 M1 C",
            &[Seize, Digit(1, true), Release, Seize, Close],
        ),
    ),
    (
        FAST,
        (
            "a make under the time-out, and the time-out",
            "M50 B30 M999 B30 M1000 C",
            &[Seize, Digit(1, false), Digit(1, false), TimeOut, Close],
        ),
    ),
    (
        LEAST,
        (
            "pulses, a time-out and a release at the least limits",
            "M1 B1 M1 B1 M2 B2 C",
            &[
                Seize,
                Digit(1, false),
                Digit(1, false),
                TimeOut,
                Release,
                Close,
            ],
        ),
    ),
];

#[test]
fn own_limits(rt: HostRuntime) -> Result<(), Fail> {
    let greatest = Limits {
        release: GREATEST_LIMIT,
        timeout: GREATEST_LIMIT,
        ..Limits::standard()
    };
    for case in RECORDS_AT_GREATEST_LIMITS {
        check(&rt, rt.alloc(), greatest, case)?;
    }
    for (limits, case) in RECORDS_AT_OWN_LIMITS {
        check(&rt, rt.alloc(), limits, case)?;
        check_cut(&rt, rt.alloc(), limits, case)?;
    }
    Ok(())
}

// The signals of a line.
fn assert_signals(
    rt: &impl Abort,
    alloc: Global,
    number: u16,
    sent: &[On<Signal>],
    wanted: &[Signal],
) -> Result<(), Fail> {
    assert_eq!(rt;
        on_line(alloc, number, sent)?.as_slice(),
        wanted,
        "line {number}"
    );
    Ok(())
}

#[test]
fn two_lines_in_turn(rt: HostRuntime) -> Result<(), Fail> {
    let alloc = rt.alloc();
    let rows = in_turn(
        alloc,
        &rows_of(alloc, 1, "M500 #0 C")?,
        &rows_of(alloc, 2, "M500 #4 #1 #1 C")?,
    )?;
    let sent = image_of(alloc, &Pulse::new(Limits::standard()), rows)?;
    let operator = [Seize, Digit(10, false), Close];
    assert_signals(&rt, alloc, 1, &sent, &operator)?;
    let service = [
        Seize,
        Digit(4, false),
        Digit(1, false),
        Digit(1, false),
        Close,
    ];
    assert_signals(&rt, alloc, 2, &sent, &service)
}

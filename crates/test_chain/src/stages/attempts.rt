// The register on signals whose outcomes are known.
use std::alloc::{AllocError, Global};
use std::process::Abort;
use std::test::Fail;
use xb_model::{Dialled, Digit, LineNo, On, Plan, Reason, Signal, image_of};
use xb_register::Register;

// The line of the attempts that have it to themselves.
const LINE: u16 = 5;

const SEIZE: Signal = Signal::Seize;

const TIME_OUT: Signal = Signal::TimeOut;

const RELEASE: Signal = Signal::Release;

const CLOSE: Signal = Signal::Close;

// What comes of an attempt: the digits of a number, or why there is none.
#[derive(Clone, Copy)]
enum Outcome {
    Number(&'static [u8]),
    Refused(Reason, u8),
}

// A good train of so many pulses.
fn pulses(count: u8) -> Signal {
    Signal::Digit(count, false)
}

fn is_outcome(dialled: &Dialled, outcome: Outcome) -> bool {
    match (dialled, outcome) {
        (Dialled::Number(digits), Outcome::Number(wanted)) => is_number(digits.digits(), wanted),
        (Dialled::Refused(reason, heard), Outcome::Refused(wanted, count)) => {
            *reason == wanted && *heard == count
        }
        _ => false,
    }
}

fn is_number(digits: &[Digit], wanted: &[u8]) -> bool {
    digits.len() == wanted.len() && digits.iter().zip(wanted).all(|(d, w)| d.get() == *w)
}

// What the register of a plan gives for signals, each with its line.
fn outcomes(
    rt: &impl Abort,
    alloc: Global,
    plan: Plan,
    signals: &[(u16, Signal)],
) -> Result<Vec<On<Dialled>>, AllocError> {
    let mut items = Vec::new(alloc);
    for (number, what) in signals {
        let line = LineNo::new(*number).expect(rt, "a line");
        items.push(On { line, what: *what })?;
    }
    image_of(alloc, &Register::new(plan), items)
}

// These signals on the one line.
fn on_the_line(alloc: Global, signals: &[Signal]) -> Result<Vec<(u16, Signal)>, AllocError> {
    let mut on_line = Vec::new(alloc);
    for signal in signals {
        on_line.push((LINE, *signal))?;
    }
    Ok(on_line)
}

// The signals on the one line give these outcomes on it, and no other.
fn assert_outcomes(
    rt: &impl Abort,
    alloc: Global,
    name: &str,
    plan: Plan,
    signals: &[Signal],
    wanted: &[Outcome],
) -> Result<(), AllocError> {
    let given = outcomes(rt, alloc, plan, &on_the_line(alloc, signals)?)?;
    assert_eq!(rt; given.len(), wanted.len(), "{name}");
    for (given, wanted) in given.iter().zip(wanted) {
        assert_eq!(rt; given.line.get(), LINE, "{name}");
        assert!(rt; is_outcome(&given.what, *wanted), "{name}");
    }
    Ok(())
}

// Signals of the one line, and what comes of their attempts.
const RECORDS: [(&str, &[Signal], &[Outcome]); 8] = [
    (
        "a number, a conversation, and a seizure that the close ends",
        &[
            SEIZE,
            Signal::Digit(4, false),
            Signal::Digit(1, false),
            Signal::Digit(1, false),
            Signal::Digit(9, false),
            TIME_OUT,
            RELEASE,
            SEIZE,
            CLOSE,
        ],
        &[
            Outcome::Number(&[4, 1, 1]),
            Outcome::Refused(Reason::Abandoned, 0),
        ],
    ),
    (
        "a mutilated digit, then a good one and a time-out",
        &[
            SEIZE,
            Signal::Digit(2, false),
            Signal::Digit(5, true),
            Signal::Digit(3, false),
            TIME_OUT,
            CLOSE,
        ],
        &[Outcome::Refused(Reason::Mutilated, 1)],
    ),
    (
        "a mutilated digit, then a time-out",
        &[
            SEIZE,
            Signal::Digit(2, false),
            Signal::Digit(5, true),
            TIME_OUT,
            CLOSE,
        ],
        &[Outcome::Refused(Reason::Mutilated, 1)],
    ),
    (
        "eleven pulses",
        &[
            SEIZE,
            Signal::Digit(4, false),
            Signal::Digit(11, false),
            CLOSE,
        ],
        &[Outcome::Refused(Reason::Mutilated, 1)],
    ),
    (
        "a time-out, then a release",
        &[
            SEIZE,
            Signal::Digit(2, false),
            Signal::Digit(3, false),
            TIME_OUT,
            RELEASE,
            CLOSE,
        ],
        &[Outcome::Refused(Reason::TimedOut, 2)],
    ),
    (
        "a release, then a number",
        &[
            SEIZE,
            Signal::Digit(2, false),
            RELEASE,
            SEIZE,
            Signal::Digit(10, false),
            CLOSE,
        ],
        &[
            Outcome::Refused(Reason::Abandoned, 1),
            Outcome::Number(&[0]),
        ],
    ),
    (
        "no seizure",
        &[Signal::Digit(10, false), TIME_OUT, RELEASE, CLOSE],
        &[],
    ),
    ("a close alone", &[CLOSE], &[]),
];

// The good digits of an attempt that goes on, and what comes of them in plan Seven and in plan Ten.
const ATTEMPTS: [(&str, &[u8], &[Outcome], &[Outcome]); 6] = [
    (
        "the operator",
        &[0],
        &[Outcome::Number(&[0])],
        &[Outcome::Number(&[0])],
    ),
    (
        "a service code",
        &[4, 1, 1],
        &[Outcome::Number(&[4, 1, 1])],
        &[Outcome::Number(&[4, 1, 1])],
    ),
    (
        "seven digits that begin with the code of an area",
        &[4, 1, 2, 5, 5, 5, 1],
        &[Outcome::Number(&[4, 1, 2, 5, 5, 5, 1])],
        &[],
    ),
    (
        "ten digits",
        &[2, 0, 1, 5, 5, 5, 1, 2, 3, 4],
        &[Outcome::Number(&[2, 0, 1, 5, 5, 5, 1])],
        &[Outcome::Number(&[2, 0, 1, 5, 5, 5, 1, 2, 3, 4])],
    ),
    (
        "three ones are no service code",
        &[1, 1, 1, 2, 3, 4, 5],
        &[Outcome::Number(&[1, 1, 1, 2, 3, 4, 5])],
        &[Outcome::Number(&[1, 1, 1, 2, 3, 4, 5])],
    ),
    ("six digits", &[2, 3, 4, 5, 6, 7], &[], &[]),
];

// The signals of an attempt that goes on, with these digits.
fn dialling(alloc: Global, digits: &[u8]) -> Result<Vec<Signal>, AllocError> {
    let mut signals = Vec::new(alloc);
    signals.push(SEIZE)?;
    for digit in digits {
        signals.push(pulses(if *digit == 0 { 10 } else { *digit }))?;
    }
    Ok(signals)
}

#[test]
fn attempts_end_in_outcomes(rt: HostRuntime) -> Result<(), Fail> {
    let alloc = rt.alloc();
    for (name, signals, wanted) in RECORDS {
        assert_outcomes(&rt, alloc, name, Plan::Seven, signals, wanted)?;
    }
    for (name, digits, seven, ten) in ATTEMPTS {
        let signals = dialling(alloc, digits)?;
        assert_outcomes(&rt, alloc, name, Plan::Seven, &signals, seven)?;
        assert_outcomes(&rt, alloc, name, Plan::Ten, &signals, ten)?;
    }
    Ok(())
}

#[test]
fn lines_are_apart(rt: HostRuntime) -> Result<(), Fail> {
    let signals = [
        (1, SEIZE),
        (2, SEIZE),
        (1, pulses(4)),
        (2, pulses(10)),
        (1, pulses(1)),
        (2, RELEASE),
        (1, pulses(1)),
    ];
    let given = outcomes(&rt, rt.alloc(), Plan::Seven, &signals)?;
    let wanted = [(2, Outcome::Number(&[0])), (1, Outcome::Number(&[4, 1, 1]))];
    assert_eq!(rt; given.len(), wanted.len());
    for (given, (line, outcome)) in given.iter().zip(&wanted) {
        assert!(rt;
            given.line.get() == *line && is_outcome(&given.what, *outcome),
            "line {line}"
        );
    }
    Ok(())
}

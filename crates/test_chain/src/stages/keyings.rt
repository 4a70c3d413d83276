// What is keyed for orders, and a refused attempt.
use std::alloc::{AllocError, Global};
use std::process::Abort;
use std::test::Fail;
use test_kit::marks::keying;
use xb_model::{
    Digit, KEY_DIGITS, KeyDigits, LineNo, LineStage, Mark, OUTPUT_ROOM, On, Order, Reason, Trunk,
};
use xb_sender::Sender;

// The line of every order.
const LINE: u16 = 20;

// What the sender gives for an order of the line.
fn sent(rt: &impl Abort, alloc: Global, order: Order) -> Result<Vec<On<Mark>>, AllocError> {
    let line = LineNo::new(LINE).expect(rt, "a line");
    let sender = Sender::new();
    let mut state = sender.fresh();
    let mut out = Vec::with_capacity(alloc, OUTPUT_ROOM)?;
    sender.step(&mut state, On { line, what: order }, &mut out);
    Ok(out)
}

// These marks on the line, and no other.
fn assert_marks(rt: &impl Abort, sent: &[On<Mark>], wanted: &[Mark]) {
    assert_eq!(rt; sent.len(), wanted.len());
    for (sent, wanted) in sent.iter().zip(wanted) {
        assert_eq!(rt; sent.line.get(), LINE);
        assert_eq!(rt; sent.what, *wanted);
    }
}

// The order to key these digits.
fn order(trunk: u16, values: &[u8]) -> Result<Order, Fail> {
    let trunk = Trunk::new(trunk).ok_or("a trunk group")?;
    let mut digits = KeyDigits::new();
    for value in values {
        if digits.digits().len() == KEY_DIGITS {
            return Err(Fail::from("more digits than a keying has"));
        }
        digits.push(Digit::new(*value).ok_or("a digit")?);
    }
    Ok(Order::Key(trunk, digits))
}

// Trunk groups and digits, with how many marks are keyed of them.
const KEYINGS: &[(u16, &[u8], usize)] = &[
    // the operator
    (1, &[0], 4),
    // every digit
    (17, &[0, 1, 2, 3, 4, 5, 6, 7, 8, 9], 13),
    // numbers of ten digits, the first without its area code
    (40, &[5, 5, 5, 1, 2, 3, 4], 10),
    (41, &[2, 1, 2, 6, 6, 6, 1, 2, 3, 4], 13),
    // the longest keying
    (
        9999,
        &[1, 2, 3, 4, 5, 6, 7, 8, 2, 1, 2, 5, 5, 5, 1, 2, 3, 4],
        21,
    ),
];

#[test]
fn marks_of_orders(rt: HostRuntime) -> Result<(), Fail> {
    for (trunk, digits, count) in KEYINGS {
        let out = sent(&rt, rt.alloc(), order(*trunk, digits)?)?;
        assert_eq!(rt; out.len(), *count);
        assert_marks(&rt, &out, &keying(rt.alloc(), *trunk, digits)?);
    }
    let out = sent(&rt, rt.alloc(), Order::Refused(Reason::Unknown, 7))?;
    assert_marks(&rt, &out, &[Mark::Refused(Reason::Unknown, 7)]);
    Ok(())
}

// The orders of what is dialled.
use crate::stages::tables::{are_digits, digits, table_of};
use std::alloc::{AllocError, Global};
use std::process::Abort;
use std::test::Fail;
use test_kit::decks::TABLE;
use xb_model::{Dialled, LineNo, LineStage, NumberDigits, OUTPUT_ROOM, On, Order, Reason};
use xb_routes::{RouteTable, Translate};

// What the stage orders for an outcome on line 20.
fn ordered(
    rt: &impl Abort,
    alloc: Global,
    table: &RouteTable,
    name: &str,
    outcome: Dialled,
) -> Result<Order, AllocError> {
    let line = LineNo::new(20).expect(rt, "a line");
    let stage = Translate::new(table);
    let mut state = stage.fresh();
    let mut out = Vec::with_capacity(alloc, OUTPUT_ROOM)?;
    let item = On {
        line,
        what: outcome,
    };
    stage.step(&mut state, item, &mut out);
    assert_eq!(rt; out.len(), 1, "orders of {name}");
    let order = out.pop().expect(rt, "an order");
    assert_eq!(rt; order.line.get(), 20, "the line of {name}");
    Ok(order.what)
}

// Checks the trunk group and the digits that a number is keyed with.
fn check_order(
    rt: &impl Abort,
    alloc: Global,
    table: &RouteTable,
    row: (&str, u16, &str),
) -> Result<(), AllocError> {
    let (number, trunk, keyed) = row;
    let dialled = digits(rt, alloc, number)?;
    let dialled = NumberDigits::of(&dialled).expect(rt, "at most ten digits");
    match ordered(rt, alloc, table, number, Dialled::Number(dialled))? {
        Order::Key(group, order) => {
            assert_eq!(rt; group.get(), trunk, "of {number}");
            assert!(rt; are_digits(order.digits(), keyed), "of {number}");
        }
        Order::Refused(reason, heard) => panic!(rt; "{number} is refused: {reason:?} {heard}"),
    }
    Ok(())
}

// Checks the reason and the count with which an outcome is refused.
fn check_refusal(
    rt: &impl Abort,
    alloc: Global,
    table: &RouteTable,
    name: &str,
    outcome: Dialled,
    refusal: (Reason, u8),
) -> Result<(), AllocError> {
    match ordered(rt, alloc, table, name, outcome)? {
        Order::Key(group, _) => panic!(rt; "{name} is keyed on {group:?}"),
        Order::Refused(reason, heard) => assert_eq!(rt; (reason, heard), refusal, "of {name}"),
    }
    Ok(())
}

// Tables, numbers, and the trunk groups and the digits with which these are keyed.
const KEYED: &[(&str, (&str, u16, &str))] = &[
    (TABLE, ("2345678", 17, "565678")),
    (TABLE, ("411", 3, "411")),
    (TABLE, ("0", 1, "0")),
    (
        "[[route]]\ncode = \"999\"\ntrunk = 9999\nprefix = \"12345678\"\n",
        ("9999999", 9_999, "123456789999999"),
    ),
    (
        "[[route]]\ncode = \"234\"\ntrunk = 17\ndelete = 7\nprefix = \"5\"\n",
        ("234567", 17, "5"),
    ),
    (
        "route = [{ code = \"0\", trunk = 1, name = 3 }, { code = \"911\", trunk = 0 }]",
        ("911", 0, "911"),
    ),
];

#[test]
fn orders_of_what_is_dialled(rt: HostRuntime) -> Result<(), Fail> {
    for (text, row) in KEYED {
        let table = table_of(&rt, rt.alloc(), text);
        check_order(&rt, rt.alloc(), &table, *row)?;
    }
    let table = table_of(&rt, rt.alloc(), TABLE);
    let dialled = digits(&rt, rt.alloc(), "5551234")?;
    let outcome = Dialled::Number(NumberDigits::of(&dialled).ok_or("at most seven digits")?);
    let refusal = (Reason::Unknown, 7);
    check_refusal(
        &rt,
        rt.alloc(),
        &table,
        "a number without a route",
        outcome,
        refusal,
    )?;
    let refusal = (Reason::TimedOut, 6);
    let outcome = Dialled::Refused(Reason::TimedOut, 6);
    check_refusal(
        &rt,
        rt.alloc(),
        &table,
        "an attempt that timed out",
        outcome,
        refusal,
    )?;
    Ok(())
}

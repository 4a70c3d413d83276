// What plan Seven and plan Ten take as codes, and how many digits their routes may delete.
use crate::stages::tables::{check_fault, check_route, digits, table_of};
use std::alloc::{AllocError, Global};
use std::process::Abort;
use std::test::Fail;
use test_kit::attempts::PLAN_TEN;
use xb_routes::RouteFault;

// Texts, and the most digits that a route of each may delete in plan Seven and in plan Ten, where it is a code.
const CODES: &[(&str, Option<u8>, Option<u8>)] = &[
    ("0", Some(1), Some(1)),
    ("234", Some(7), Some(7)),
    ("411", Some(3), Some(3)),
    ("212", None, Some(10)),
    ("201", None, Some(10)),
    ("212555", None, Some(10)),
    ("411555", None, None),
    ("212155", None, None),
    ("111", None, None),
    ("1", None, None),
    ("23", None, None),
    ("2345", None, None),
    ("", None, None),
    ("23a", None, None),
];

// The fault of a route that deletes so many digits, if it has one.
fn fault_of(most: Option<u8>, deleted: u8, prefix: &str) -> Option<RouteFault> {
    match most {
        None => Some(RouteFault::Code(1)),
        Some(most) if deleted > most => Some(RouteFault::Delete(1)),
        Some(most) if deleted == most && prefix.is_empty() => Some(RouteFault::NothingToKey(1)),
        Some(_) => None,
    }
}

// Checks a route of this code, with this deletion and this prefix.
fn check_deletion(
    rt: &impl Abort,
    alloc: Global,
    plan: &str,
    code: &str,
    route: (u8, &str),
    fault: Option<RouteFault>,
) -> Result<(), AllocError> {
    let (deleted, prefix) = route;
    let text = format!(in alloc;
        "{plan}[[route]]\ncode = \"{code}\"\ntrunk = 1\ndelete = {deleted}\nprefix = \"{prefix}\"\n"
    )?;
    match fault {
        Some(fault) => check_fault(rt, alloc, &text, fault),
        None => check_route(rt, alloc, &text, code, (1, deleted, prefix))?,
    }
    Ok(())
}

// Checks routes of this code that delete up to the most digits, and one more, each without a prefix and with one.
fn check_code(
    rt: &impl Abort,
    alloc: Global,
    plan: &str,
    code: &str,
    most: Option<u8>,
) -> Result<(), AllocError> {
    for deleted in 0..=most.unwrap_or(0).saturating_add(1) {
        let bare = fault_of(most, deleted, "");
        check_deletion(rt, alloc, plan, code, (deleted, ""), bare)?;
        let prefixed = fault_of(most, deleted, "5");
        check_deletion(rt, alloc, plan, code, (deleted, "5"), prefixed)?;
    }
    Ok(())
}

#[test]
fn codes_of_plans(rt: HostRuntime) -> Result<(), Fail> {
    for (code, seven, ten) in CODES {
        check_code(&rt, rt.alloc(), "plan = 7\n", code, *seven)?;
        check_code(&rt, rt.alloc(), PLAN_TEN, code, *ten)?;
    }
    let empty = table_of(&rt, rt.alloc(), "");
    let number = digits(&rt, rt.alloc(), "2345678")?;
    assert!(rt; empty.look(&number).is_none(), "a route of an empty table");
    Ok(())
}

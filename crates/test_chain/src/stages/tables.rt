// What a route table gives, and how it is refused.
use std::alloc::{AllocError, Global};
use std::process::Abort;
use xb_model::Digit;
use xb_routes::{RouteFault, RouteTable};

// The digits that a text writes.
pub(crate) fn digits(rt: &impl Abort, alloc: Global, text: &str) -> Result<Vec<Digit>, AllocError> {
    let mut digits = Vec::new(alloc);
    for character in text.bytes() {
        digits.push(Digit::from_ascii(character).expect(rt, "a digit"))?;
    }
    Ok(digits)
}

// Whether digits are those that a text writes.
pub(crate) fn are_digits(digits: &[Digit], text: &str) -> bool {
    digits.len() == text.len()
        && digits
            .iter()
            .zip(text.bytes())
            .all(|(digit, byte)| Digit::from_ascii(byte) == Some(*digit))
}

// The table that a text writes.
pub(crate) fn table_of(rt: &impl Abort, alloc: Global, text: &str) -> RouteTable {
    match RouteTable::read(alloc, text.as_bytes()) {
        Ok(table) => table,
        Err(fault) => panic!(rt; "{fault:?} of {text}"),
    }
}

// Checks the trunk group, the deletion and the prefix of the route of a number in the table that a
// text writes.
pub(crate) fn check_route(
    rt: &impl Abort,
    alloc: Global,
    text: &str,
    number: &str,
    wanted: (u16, u8, &str),
) -> Result<(), AllocError> {
    let table = table_of(rt, alloc, text);
    let (trunk, deleted, prefixed) = wanted;
    let dialled = digits(rt, alloc, number)?;
    let Some(route) = table.look(&dialled) else {
        panic!(rt; "no route of {number} in {text}")
    };
    assert_eq!(rt; route.trunk.get(), trunk, "of {number} in {text}");
    assert_eq!(rt; route.deleted, deleted, "of {number} in {text}");
    assert!(rt;
        are_digits(route.prefixed.digits(), prefixed),
        "of {number} in {text}"
    );
    Ok(())
}

// Checks the fault with which a text is refused.
pub(crate) fn check_fault(rt: &impl Abort, alloc: Global, text: &str, fault: RouteFault) {
    match RouteTable::read(alloc, text.as_bytes()) {
        Ok(_) => panic!(rt; "accepted in place of {fault:?}: {text}"),
        Err(found) => assert_eq!(rt; found, fault, "of {text}"),
    }
}

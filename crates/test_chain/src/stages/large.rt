// Tables of many routes, and texts as large as a deck may be.
use crate::stages::tables::digits;
use std::alloc::{AllocError, Global};
use std::process::Abort;
use std::test::Fail;
use xb_routes::{RouteFault, RouteTable};

// The greatest length of a deck in bytes.
const DECK: usize = 16_777_216;

// No less than the length in bytes of a line that has one key.
const LONGEST_LINE: usize = 20;

// How many codes plan Seven has: 0, 8 of the form N11 and 640 of the form NNX.
const CODES: usize = 649;

// Whether a number of at most three digits is a code of plan Seven.
fn is_code(number: u16) -> bool {
    let second = number / 10 % 10;
    number == 0 || number >= 200 && (second > 1 || number % 100 == 11)
}

// A table of all codes in ascending order.
fn all_codes(alloc: Global) -> Result<String, AllocError> {
    let mut text = String::new(alloc);
    for number in 0..1_000u16 {
        if is_code(number) {
            write!(
                &mut text,
                "[[route]]\ncode = \"{number}\"\ntrunk = {number}\n"
            )?;
        }
    }
    Ok(text)
}

// A table of all codes, and then as many more routes of code 0.
fn many_routes(alloc: Global, more: usize) -> Result<String, AllocError> {
    let mut text = all_codes(alloc)?;
    for _route in 0..more {
        text.push_str("[[route]]\ncode = \"0\"\ntrunk = 0\n")?;
    }
    Ok(text)
}

#[test]
fn every_code_has_its_route(rt: HostRuntime) -> Result<(), Fail> {
    let text = all_codes(rt.alloc())?;
    let table = RouteTable::read(rt.alloc(), text.as_bytes())?;
    for number in 0..1_000u16 {
        let mut code = String::new(rt.alloc());
        write!(&mut code, "{number}")?;
        let digits = digits(&rt, rt.alloc(), code.as_str())?;
        let trunk = table.look(&digits).map(|route| route.trunk.get());
        let wanted = if is_code(number) { Some(number) } else { None };
        assert_eq!(rt; trunk, wanted, "by {number}");
    }
    Ok(())
}

#[test]
fn at_most_a_thousand_routes(rt: HostRuntime) -> Result<(), Fail> {
    let text = many_routes(rt.alloc(), 1_000 - CODES)?;
    let fault = RouteTable::read(rt.alloc(), text.as_bytes()).err();
    assert_eq!(rt; fault, Some(RouteFault::Twice(650)));
    let text = many_routes(rt.alloc(), 1_001 - CODES)?;
    let fault = RouteTable::read(rt.alloc(), text.as_bytes()).err();
    assert_eq!(rt; fault, Some(RouteFault::TooMany));
    Ok(())
}

// A text of the greatest length: one part, another as often as it fits, and a last one.
fn filled(alloc: Global, first: &str, again: &str, last: &str) -> Result<String, AllocError> {
    let mut text = String::with_capacity(alloc, DECK)?;
    text.push_str(first)?;
    for _part in 0..DECK {
        if text
            .len()
            .saturating_add(again.len())
            .saturating_add(last.len())
            > DECK
        {
            break;
        }
        text.push_str(again)?;
    }
    text.push_str(last)?;
    Ok(text)
}

#[test]
fn a_large_comment(rt: HostRuntime) -> Result<(), Fail> {
    let line = "# as many lines of comment as a deck has room for\n";
    let route = "[[route]]\ncode = \"0\"\ntrunk = 1\n";
    let text = filled(rt.alloc(), "", line, route)?;
    let table = RouteTable::read(rt.alloc(), text.as_bytes())?;
    let digits = digits(&rt, rt.alloc(), "0")?;
    assert!(rt; table.look(&digits).is_some());
    Ok(())
}

#[test]
fn deep_nesting(rt: HostRuntime) -> Result<(), Fail> {
    for (first, again, last) in [
        ("a = ", "[[[[[[[[", "\n"),
        ("a = ", "{ a = { a = ", "\n"),
        ("a", ".a.a.a.a", " = 1\n"),
        ("[[a", ".a.a.a.a", "]]\n"),
    ] {
        let text = filled(rt.alloc(), first, again, last)?;
        let fault = RouteTable::read(rt.alloc(), text.as_bytes()).err();
        assert_eq!(rt; fault, Some(RouteFault::NotToml), "{first}");
    }
    Ok(())
}

// Checks that a text is read and has no route.
fn check_no_route(rt: &impl Abort, alloc: Global, text: &str, name: &str) -> Result<(), Fail> {
    let digits = digits(rt, alloc, "0")?;
    match RouteTable::read(alloc, text.as_bytes()) {
        Ok(table) => assert!(rt; table.look(&digits).is_none(), "a route of {name}"),
        Err(fault) => panic!(rt; "{name}: {fault:?}"),
    }
    Ok(())
}

#[test]
fn many_keys(rt: HostRuntime) -> Result<(), Fail> {
    let mut text = String::with_capacity(rt.alloc(), DECK)?;
    for key in 0..DECK {
        if text.len() > DECK - LONGEST_LINE {
            break;
        }
        write!(&mut text, "k{key} = {key}\n")?;
    }
    assert!(rt; text.len() > DECK - LONGEST_LINE && text.len() <= DECK);
    check_no_route(&rt, rt.alloc(), &text, "many keys")
}

// The header of a table that lies 70 deep.
fn deep_header(alloc: Global) -> Result<String, AllocError> {
    let mut header = String::from_str(alloc, "[a")?;
    for _part in 1..70 {
        header.push_str(".a")?;
    }
    header.push_str("]\n")?;
    Ok(header)
}

// A text that begins with a line, and has then as many lines with a key each as fit in 65,536 bytes.
// The keys differ: each is the one before and a step more, modulo 10,000.
fn lines_of_keys(
    alloc: Global,
    first: &str,
    step: u32,
    around: (&str, &str),
) -> Result<String, AllocError> {
    let (before, after) = around;
    let mut text = String::from_str(alloc, first)?;
    for line in 0..10_000u32 {
        if text.len() > 65_536 - LONGEST_LINE {
            break;
        }
        let key = line.wrapping_mul(step) % 10_000;
        write!(&mut text, "{before}{key}{after}")?;
    }
    Ok(text)
}

#[test]
fn keys_of_each_form(rt: HostRuntime) -> Result<(), Fail> {
    let deep = deep_header(rt.alloc())?;
    for (name, first, step, around) in [
        ("descending keys", "", 9_999, ("k", " = 0\n")),
        ("mixed keys", "", 7_919, ("k", " = 0\n")),
        ("last parts of dotted keys", "", 7_919, ("a.k", " = 0\n")),
        ("first parts of dotted keys", "", 7_919, ("k", ".a = 0\n")),
        ("headers", "", 7_919, ("[k", "]\n")),
        (
            "keys of a deep table",
            deep.as_str(),
            7_919,
            ("k", " = 0\n"),
        ),
    ] {
        let mut text = lines_of_keys(rt.alloc(), first, step, around)?;
        check_no_route(&rt, rt.alloc(), &text, name)?;
        let (before, after) = around;
        write!(&mut text, "{before}0{after}")?;
        let fault = RouteTable::read(rt.alloc(), text.as_bytes()).err();
        assert_eq!(rt;
            fault,
            Some(RouteFault::NotToml),
            "{name}, one of them twice"
        );
    }
    Ok(())
}

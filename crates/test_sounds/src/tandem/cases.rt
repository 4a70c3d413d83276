// What comes of keys: the page of each case was reckoned by hand of the rules of DEFINITIONS, by a table without routes
// for the numbers, so that each tells how many digits were taken.
use crate::tandem::statuses::Mftandem;
use std::alloc::{AllocError, Global};
use std::test::Fail;
use test_kit::{Gives, check_status};

// Keys as `mfrx --json` writes them: when the first begins, in ms, and their names. Each lasts 68 ms, with gaps of 68 ms.
pub(crate) type Piece = (u64, &'static [&'static str]);

// The keys, and the page.
type Case = (&'static [Piece], &'static [u8]);

// A pair that is no key of the office.
const OTHER: &str = "ST'''";

const CASES: &[Case] = &[
    // a number, no key at all, keys outside a keying, one digit, KP and ST alone
    (
        &[(0, &["KP", "2", "3", "4", "5", "6", "7", "8", "ST"])],
        b"0000 1 REFUSED UNKNOWN 7\nKEYED 0 REFUSED 1\n",
    ),
    (&[], b"KEYED 0 REFUSED 0\n"),
    (&[(0, &["2", "ST", OTHER, "3"])], b"KEYED 0 REFUSED 0\n"),
    (
        &[(0, &["KP", "0", "ST"])],
        b"0000 1 REFUSED UNKNOWN 1\nKEYED 0 REFUSED 1\n",
    ),
    (
        &[(0, &["KP", "ST"])],
        b"0000 1 REFUSED UNKNOWN 0\nKEYED 0 REFUSED 1\n",
    ),
    // ten digits, eleven, and two numbers 68 ms apart
    (
        &[(
            0,
            &["KP", "2", "1", "2", "5", "5", "5", "0", "1", "2", "3", "ST"],
        )],
        b"0000 1 REFUSED UNKNOWN 10\nKEYED 0 REFUSED 1\n",
    ),
    (
        &[(
            0,
            &[
                "KP", "1", "2", "1", "2", "5", "5", "5", "0", "1", "2", "3", "ST",
            ],
        )],
        b"0000 1 REFUSED UNKNOWN 11\nKEYED 0 REFUSED 1\n",
    ),
    (
        &[(0, &["KP", "1", "ST", "KP", "2", "3", "ST"])],
        b"0000 1 REFUSED UNKNOWN 1\n0000 2 REFUSED UNKNOWN 2\nKEYED 0 REFUSED 2\n",
    ),
    // a second KP, and a pair that is none: the rest is not heard
    (
        &[(0, &["KP", "1", "2", "KP", "3", "ST"])],
        b"0000 1 REFUSED MUTILATED 2\nKEYED 0 REFUSED 1\n",
    ),
    (
        &[(0, &["KP", "1", OTHER, "3", "ST"])],
        b"0000 1 REFUSED MUTILATED 1\nKEYED 0 REFUSED 1\n",
    ),
    // the pair ends at 340: heard again at 840, not at 839
    (
        &[(0, &["KP", "1", OTHER]), (840, &["KP", "4", "5", "ST"])],
        b"0000 1 REFUSED MUTILATED 1\n0000 2 REFUSED UNKNOWN 2\nKEYED 0 REFUSED 2\n",
    ),
    (
        &[(0, &["KP", "1", OTHER]), (839, &["KP", "4", "5", "ST"])],
        b"0000 1 REFUSED MUTILATED 1\nKEYED 0 REFUSED 1\n",
    ),
    // after that silence a digit is outside
    (
        &[(0, &["KP", OTHER]), (804, &["3", "ST", "KP", "5", "ST"])],
        b"0000 1 REFUSED MUTILATED 0\n0000 2 REFUSED UNKNOWN 1\nKEYED 0 REFUSED 2\n",
    ),
    // the 1 ends at 204: 10,000 ms of silence time out, 9,999 do not
    (
        &[(0, &["KP", "1"]), (10_204, &["2", "ST"])],
        b"0000 1 REFUSED TIMEDOUT 1\nKEYED 0 REFUSED 1\n",
    ),
    (
        &[(0, &["KP", "1"]), (10_203, &["2", "ST"])],
        b"0000 1 REFUSED UNKNOWN 2\nKEYED 0 REFUSED 1\n",
    ),
    // a KP after a time-out opens
    (
        &[(0, &["KP", "1"]), (20_000, &["KP", "2", "3", "ST"])],
        b"0000 1 REFUSED TIMEDOUT 1\n0000 2 REFUSED UNKNOWN 2\nKEYED 0 REFUSED 2\n",
    ),
    // the keys end in a keying, with its KP, and while the register is deaf
    (
        &[(0, &["KP", "1", "2", "3"])],
        b"0000 1 REFUSED ABANDONED 3\nKEYED 0 REFUSED 1\n",
    ),
    (
        &[(0, &["KP"])],
        b"0000 1 REFUSED ABANDONED 0\nKEYED 0 REFUSED 1\n",
    ),
    (
        &[(0, &["KP", "7", "KP", "KP", "8", "ST"])],
        b"0000 1 REFUSED MUTILATED 1\nKEYED 0 REFUSED 1\n",
    ),
    // times that run back are no silence
    (
        &[(50_000, &["KP", "1"]), (0, &["2", "ST"])],
        b"0000 1 REFUSED UNKNOWN 2\nKEYED 0 REFUSED 1\n",
    ),
];

// The text of keys.
pub(crate) fn text_of(alloc: Global, pieces: &[Piece]) -> Result<String, AllocError> {
    let mut text = String::new(alloc);
    for (start, names) in pieces {
        let mut at = *start;
        for name in *names {
            write!(
                text,
                "{{\"at_ms\":{at},\"key\":\"{name}\",\"length_ms\":68}}\n"
            )?;
            at = at.saturating_add(136);
        }
    }
    Ok(text)
}

#[test]
fn takes_keys_as_reckoned(rt: HostRuntime) -> Result<(), Fail> {
    for (pieces, page) in CASES {
        let text = text_of(rt.alloc(), pieces)?;
        let wanted = Gives::page(page);
        check_status(rt.alloc(), &Mftandem, &["none"], text.as_bytes(), wanted)?;
    }
    Ok(())
}

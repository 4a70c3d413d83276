// Texts of calls, and their faults.
use std::process::Abort;
use std::test::Fail;
use xb_calls::{Call, MOST_TEXT_BYTES, calls_of_text};
use xb_model::Plan;

// A line, and the values of its digits.
type Parts = (u16, &'static [u8]);

// A text, the plan by which its numbers have to be complete, and its calls or the words of its fault.
type Case = (
    &'static [u8],
    Option<Plan>,
    Result<&'static [Parts], &'static [u8]>,
);

const SEVEN: Option<Plan> = Some(Plan::Seven);

const TEN: Option<Plan> = Some(Plan::Ten);

const CASES: &[Case] = &[
    (b"", SEVEN, Ok(&[])),
    (b"\n\r\n# 7 0\n#", SEVEN, Ok(&[])),
    (b"7 0", SEVEN, Ok(&[(7, &[0])])),
    (
        b"7 234-5678\r\n0009  4 1-1 \n",
        SEVEN,
        Ok(&[(7, &[2, 3, 4, 5, 6, 7, 8]), (9, &[4, 1, 1])]),
    ),
    (
        b"9999 212-555-1234\n0 411\n1 2345678\n",
        TEN,
        Ok(&[
            (9999, &[2, 1, 2, 5, 5, 5, 1, 2, 3, 4]),
            (0, &[4, 1, 1]),
            (1, &[2, 3, 4, 5, 6, 7, 8]),
        ]),
    ),
    (b"7 1112345", TEN, Ok(&[(7, &[1, 1, 1, 2, 3, 4, 5])])),
    // the line
    (
        b"10000 0",
        SEVEN,
        Err(b"text line 1: \"10000\" is no line of 0 to 9999"),
    ),
    // a byte order mark, tabs, and lines of blanks
    (
        b"\xef\xbb\xbf 7\t0 \t\r\n \t\r\n\t# 7 0\n\t 9 4\t11",
        SEVEN,
        Ok(&[(7, &[0]), (9, &[4, 1, 1])]),
    ),
    (
        b"7 0\n\xef\xbb\xbf7 0",
        SEVEN,
        Err(b"text line 2: \"???7\" is no line of 0 to 9999"),
    ),
    (
        b"-7 0",
        SEVEN,
        Err(b"text line 1: \"-7\" is no line of 0 to 9999"),
    ),
    (
        b"7,0",
        SEVEN,
        Err(b"text line 1: \"7,0\" is no line of 0 to 9999"),
    ),
    (
        b"#\n\r7 0",
        SEVEN,
        Err(b"text line 2: \"?7\" is no line of 0 to 9999"),
    ),
    // 40 bytes are told, and one that is not printed as a question mark
    (
        b"\xff234567890123456789012345678901234567890123 0",
        SEVEN,
        Err(b"text line 1: \"?234567890123456789012345678901234567890\" is no line of 0 to 9999"),
    ),
    // the digits
    (
        b"7 23x",
        SEVEN,
        Err(b"text line 1 has a wrong digit at byte 5: \"x\""),
    ),
    (
        b"\xef\xbb\xbf\t7 0\r\r\n",
        SEVEN,
        Err(b"text line 1 has a wrong digit at byte 5: \\x0d"),
    ),
    (
        b"7 0 # call",
        SEVEN,
        Err(b"text line 1 has a wrong digit at byte 5: \"#\""),
    ),
    (b"7\n", SEVEN, Err(b"text line 1 has no digits")),
    (b"7 - \n", None, Err(b"text line 1 has no digits")),
    // the number
    (
        b"7 41",
        SEVEN,
        Err(b"text line 1 has a number that is not complete"),
    ),
    (
        b"7 234567",
        SEVEN,
        Err(b"text line 1 has a number that is not complete"),
    ),
    (
        b"7 2125551",
        TEN,
        Err(b"text line 1 has a number that is not complete"),
    ),
    (
        b"7 00",
        SEVEN,
        Err(b"text line 1 has a number that goes on after it is complete"),
    ),
    (
        b"7 4112",
        SEVEN,
        Err(b"text line 1 has a number that goes on after it is complete"),
    ),
    (
        b"7 2125551234",
        SEVEN,
        Err(b"text line 1 has a number that goes on after it is complete"),
    ),
    (
        b"7 21255512345",
        TEN,
        Err(b"text line 1 has a number that goes on after it is complete"),
    ),
    (b"7 00\n8 41", None, Ok(&[(7, &[0, 0]), (8, &[4, 1])])),
    // the first fault
    (
        b"7 0\n7 00\nx",
        SEVEN,
        Err(b"text line 2 has a number that goes on after it is complete"),
    ),
];

// Whether a call is on this line and has these digits.
fn is_call(call: &Call, parts: &Parts) -> bool {
    let (line, digits) = *parts;
    call.line().get() == line
        && call.digits().len() == digits.len()
        && call
            .digits()
            .iter()
            .zip(digits)
            .all(|(digit, value)| digit.get() == *value)
}

fn check_calls(rt: &impl Abort, text: &[u8], calls: &[Call], want: &[Parts]) {
    assert_eq!(rt; calls.len(), want.len(), "{}", text.escape_ascii());
    for (call, parts) in calls.iter().zip(want) {
        assert!(rt; is_call(call, parts), "{}", text.escape_ascii());
    }
}

#[test]
fn reads_calls_and_names_the_first_fault(rt: HostRuntime) -> Result<(), Fail> {
    for (text, whole, want) in CASES {
        let short = text.len() <= MOST_TEXT_BYTES;
        assert!(rt; short);
        match calls_of_text(rt.alloc(), text, *whole) {
            Ok(calls) => match want {
                Ok(want) => check_calls(&rt, text, &calls, want),
                Err(_) => assert!(rt; false, "{} has a fault", text.escape_ascii()),
            },
            Err(fault) => {
                let told = format!(in rt.alloc(); "{fault}")?;
                match want {
                    Ok(_) => assert!(rt; false, "{told}: {}", text.escape_ascii()),
                    Err(words) => assert!(rt; told.as_bytes() == *words, "{told}"),
                }
            }
        }
    }
    Ok(())
}

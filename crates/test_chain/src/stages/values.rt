// Numbers, patterns and pairs of tones that stand in print, and texts.
use std::alloc::Global;
use std::test::Fail;
use xb_model::{
    Contact, Digit, Key, LineNo, Listed, Plan, Reason, Relays, Row, RowFault, RowSource, Tone, mf,
    plan_len,
};

fn digits_of(alloc: Global, values: &[u8]) -> Result<Vec<Digit>, Fail> {
    let mut digits = Vec::new(alloc);
    for value in values {
        digits.push(Digit::new(*value).ok_or("a digit")?)?;
    }
    Ok(digits)
}

// The first digits of a number, and its length by plan Seven and by plan Ten.
const LENGTHS: &[(&[u8], Option<u8>, Option<u8>)] = &[
    (&[0], Some(1), Some(1)),
    (&[4, 1, 1], Some(3), Some(3)),
    (&[4, 1, 2, 5, 5, 5, 1], Some(7), Some(10)),
    (&[2, 0, 1, 5, 5, 5, 1, 2, 3, 4], Some(7), Some(10)),
    (&[9, 1, 0], Some(7), Some(10)),
    (&[1, 1, 1, 2, 3, 4, 5], Some(7), Some(7)),
    (&[1, 0, 1], Some(7), Some(7)),
    (&[2, 3, 4, 5, 6, 7], Some(7), Some(7)),
    (&[2, 2, 0], Some(7), Some(7)),
    (&[0, 4, 1], Some(1), Some(1)),
    (&[], None, None),
    (&[4], None, None),
    (&[2, 0], None, None),
];

#[test]
fn lengths_of_numbers(rt: HostRuntime) -> Result<(), Fail> {
    for (values, seven, ten) in LENGTHS {
        let digits = digits_of(rt.alloc(), values)?;
        assert_eq!(rt;
            plan_len(Plan::Seven, &digits),
            *seven,
            "{values:?} by plan Seven"
        );
        assert_eq!(rt;
            plan_len(Plan::Ten, &digits),
            *ten,
            "{values:?} by plan Ten"
        );
    }
    Ok(())
}

#[test]
fn patterns_of_digits(rt: HostRuntime) -> Result<(), Fail> {
    let patterns = [
        (1, [true, true, false, false, false], 1),
        (2, [true, false, true, false, false], 2),
        (3, [false, true, true, false, false], 3),
        (4, [true, false, false, true, false], 4),
        (5, [false, true, false, true, false], 5),
        (6, [false, false, true, true, false], 6),
        (7, [true, false, false, false, true], 7),
        (8, [false, true, false, false, true], 8),
        (9, [false, false, true, false, true], 9),
        (10, [false, false, false, true, true], 0),
    ];
    for (count, bits, digit) in patterns {
        let relays = Relays::of_count(count, false);
        assert_eq!(rt; relays, Relays::of_bits(bits), "{count} pulses");
        assert!(rt; relays.check(), "{count} pulses");
        assert_eq!(rt;
            relays.digit().ok_or("a digit")?.get(),
            digit,
            "{count} pulses"
        );
        assert_eq!(rt;
            Relays::of_count(count, true),
            Relays::default(),
            "{count} pulses"
        );
    }
    for count in [0, 11] {
        assert!(rt; !Relays::of_count(count, false).check(), "{count} pulses");
    }
    let three = Relays::of_bits([true, true, true, false, false]);
    assert!(rt; !three.check(), "three elements");
    assert_eq!(rt; three.digit(), None, "three elements");
    Ok(())
}

#[test]
fn pairs_of_keys(rt: HostRuntime) -> Result<(), Fail> {
    for (digit, low, high) in [
        (1, 700, 900),
        (2, 700, 1100),
        (3, 900, 1100),
        (4, 700, 1300),
        (5, 900, 1300),
        (6, 1100, 1300),
        (7, 700, 1500),
        (8, 900, 1500),
        (9, 1100, 1500),
        (0, 1300, 1500),
    ] {
        let key = Key::Digit(Digit::new(digit).ok_or("a digit")?);
        assert_eq!(rt; mf(key), Tone { low, high }, "digit {digit}");
    }
    assert_eq!(rt;
        mf(Key::Kp),
        Tone {
            low: 1100,
            high: 1700
        }
    );
    assert_eq!(rt;
        mf(Key::St),
        Tone {
            low: 1500,
            high: 1700
        }
    );
    Ok(())
}

#[test]
fn words_of_reasons_and_texts_of_faults(rt: HostRuntime) -> Result<(), Fail> {
    for (reason, word) in [
        (Reason::Mutilated, "MUTILATED"),
        (Reason::Unknown, "UNKNOWN"),
        (Reason::Abandoned, "ABANDONED"),
        (Reason::TimedOut, "TIMEDOUT"),
    ] {
        assert_eq!(rt; reason.word(), word);
    }
    for (fault, text) in [
        (RowFault::Read, "the rows could not be read"),
        (RowFault::Header, "the header is not line,state,ms"),
        (RowFault::Fields(2), "record 2 has not three fields"),
        (RowFault::Line(1), "record 1 has a wrong line"),
        (RowFault::Contact(10), "record 10 has a wrong state"),
        (RowFault::Ms(1_000_000), "record 1000000 has a wrong ms"),
        (RowFault::TooMany, "more than 1000000 records"),
        (RowFault::NoMemory, "out of memory"),
    ] {
        let shown = format!(in rt.alloc(); "{fault}")?;
        assert_eq!(rt; shown.as_str(), text);
    }
    Ok(())
}

// Takes a row of any source.
fn next_of<S: RowSource>(source: &mut S) -> Result<Option<Row>, RowFault> {
    source.next_row()
}

#[test]
fn listed_rows(rt: HostRuntime) -> Result<(), Fail> {
    let line = LineNo::new(7).ok_or("a line")?;
    let first = Row::new(line, Contact::Make, 500).ok_or("a row")?;
    let rows = [first, Row::close(line)];
    let mut source = Listed::new(&rows);
    assert_eq!(rt; next_of(&mut source), Ok(Some(first)));
    assert_eq!(rt; next_of(&mut source), Ok(Some(Row::close(line))));
    assert_eq!(rt; next_of(&mut source), Ok(None));
    assert_eq!(rt; next_of(&mut source), Ok(None));
    Ok(())
}

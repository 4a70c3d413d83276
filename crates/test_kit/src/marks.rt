// Marks, for tests.
use std::alloc::Global;
use std::test::Fail;
use xb_model::{Digit, Key, Mark, Tone, Trunk};

// The pair of each digit from 0 to 9, in Hz.
const PAIRS: [(u16, u16); 10] = [
    (1300, 1500),
    (700, 900),
    (700, 1100),
    (900, 1100),
    (700, 1300),
    (900, 1300),
    (1100, 1300),
    (700, 1500),
    (900, 1500),
    (1100, 1500),
];

/// The mark of a key, with its pair in Hz.
pub fn tone(key: Key, low: u16, high: u16) -> Mark {
    Mark::Tone(key, Tone { low, high })
}

/// The mark of a digit, with its pair.
pub fn digit_tone(value: u8) -> Option<Mark> {
    let digit = Digit::new(value)?;
    let (low, high) = PAIRS.get(usize::from(value))?;
    Some(tone(Key::Digit(digit), *low, *high))
}

/// The marks of a keying that has not ended: its trunk group, KP and the digits.
pub fn unended(alloc: Global, trunk: u16, digits: &[u8]) -> Result<Vec<Mark>, Fail> {
    let trunk = Trunk::new(trunk).ok_or("a trunk group")?;
    let mut marks = vec![in alloc; Mark::Trunk(trunk), tone(Key::Kp, 1100, 1700)]?;
    for digit in digits {
        marks.push(digit_tone(*digit).ok_or("a digit")?)?;
    }
    Ok(marks)
}

/// The marks of a keying: its trunk group, KP, the digits, ST.
pub fn keying(alloc: Global, trunk: u16, digits: &[u8]) -> Result<Vec<Mark>, Fail> {
    let mut marks = unended(alloc, trunk, digits)?;
    marks.push(tone(Key::St, 1500, 1700))?;
    Ok(marks)
}

/// The marks of an operator call by the usual table, the trunk group, KP, 0, ST, without a text for where
/// there were none.
pub fn marks_of_operator() -> Option<[Mark; 4]> {
    Some([
        Mark::Trunk(Trunk::new(1)?),
        tone(Key::Kp, 1100, 1700),
        digit_tone(0)?,
        tone(Key::St, 1500, 1700),
    ])
}

/// The marks of an operator call by the usual table.
pub fn operator_marks() -> Result<[Mark; 4], Fail> {
    Ok(marks_of_operator().ok_or("marks")?)
}

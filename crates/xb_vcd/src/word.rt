// The words of a VCD.
ghost use Rattle.std.specs.Prelude.{◌≡◌};
ghost use Rattle.xb_vcd.specs.VcdWords.{change_of, code_of, keyword_of, time_of, word_by, word_of};

use xb_contact::{Level, digit_after, level_of, number_of};

/// A word of a VCD.
#[derive(Clone, Copy, Debug, PartialEq, Eq)]
pub enum Word {
    /// `#N`: the time is N.
    Time(u64),
    /// `1!`, `0!`, or `x!` and `z!`: the wire of this code has this level, or neither.
    Change(u64, Option<Level>),
    /// `b1`, `b0`, or a longer or unknown value, as `b01x` and `r1.5`: the code of the wire follows.
    Vector(Option<Level>),
    /// `$end`
    End,
    /// `$timescale`
    Timescale,
    /// `$var`
    Var,
    /// `$enddefinitions`
    EndDefinitions,
    /// `$dumpvars`, `$dumpall`, `$dumpon` or `$dumpoff`: values follow.
    Dump,
    /// `$date`, `$version`, `$comment`, `$scope`, `$upscope` or any other keyword: words up to `$end` follow.
    Section,
    /// Any other word.
    Other,
}

/// A name of printable bytes as a number, each byte a digit to the base 256: two names of one number are one
/// name. `None` for no byte, any other byte, or 2^64 and more.
pub fn code_of(text: &[u8]) -> Option<u64>
    ensures { result ≡ code_of text.now }
{
    if text.is_empty() {
        return None;
    }
    let mut code: u64 = 0;
    for byte in text {
        if *byte < b'!' || *byte > b'~' {
            return None;
        }
        match digit_after(256, code, *byte) {
            Some(longer) => code = longer,
            None => return None,
        }
    }
    Some(code)
}

// A keyword.
fn keyword_of(word: &[u8]) -> Word
    ensures { result ≡ keyword_of word.now }
{
    if word == b"$end".as_slice() {
        Word::End
    } else if word == b"$timescale".as_slice() {
        Word::Timescale
    } else if word == b"$var".as_slice() {
        Word::Var
    } else if word == b"$enddefinitions".as_slice() {
        Word::EndDefinitions
    } else if word == b"$dumpvars".as_slice() || word == b"$dumpall".as_slice() {
        Word::Dump
    } else if word == b"$dumpon".as_slice() || word == b"$dumpoff".as_slice() {
        Word::Dump
    } else {
        Word::Section
    }
}

// A time.
fn time_of(digits: &[u8]) -> Word
    ensures { result ≡ time_of digits.now }
{
    match number_of(digits) {
        Some(time) => Word::Time(time),
        None => Word::Other,
    }
}

// A change of a wire, whose code follows its level.
fn change_of(level: u8, code: &[u8]) -> Word
    ensures { result ≡ change_of level code.now }
{
    match code_of(code) {
        None => Word::Other,
        Some(code) => Word::Change(code, level_of(&[level])),
    }
}

// What a word says by its first byte.
fn word_by(first: u8, rest: &[u8], word: &[u8]) -> Word
    ensures { result ≡ word_by first rest.now word.now }
{
    match first {
        b'#' => time_of(rest),
        b'$' => keyword_of(word),
        b'b' | b'B' => Word::Vector(level_of(rest)),
        b'r' | b'R' | b's' | b'S' => Word::Vector(None),
        b'0' | b'1' | b'x' | b'X' | b'z' | b'Z' => change_of(first, rest),
        _ => Word::Other,
    }
}

/// What a word of a VCD says.
pub fn word_of(word: &[u8]) -> Word
    ensures { result ≡ word_of word.now }
{
    match word.split_first() {
        None => Word::Other,
        Some((first, rest)) => word_by(*first, rest, word),
    }
}

// The words of a text, and what sounds by them.
ghost use Rattle.std.specs.Prelude.{◌≡◌, [], ◌∷◌, ◌<◌, ◌+◌, ◌^◌, ◌++◌, IfErr, IfOk, OnOk, Ok, length, option_map};
ghost use Rattle.std.specs.List.{flat_map, list_all};
ghost use Rattle.xb_signal.specs.Segments.{silent};
ghost use Rattle.xb_signal.specs.Texts.{is_blank, next_place, segments_of_text};
ghost use Rattle.xb_signal.specs.TextSteps.{IsFault, IsFaultOfWord, StopsBy, TakesPiece, TakesWord};
ghost use Rattle.xb_signal.specs.Words.{digit_segments, word_segments};

use crate::fault::{KeysFault, Place};
use crate::key_name::{Name, name_of};
use crate::sample_range::all_fit;
use crate::segment::Segment;
use crate::setting::Setting;
use crate::word::{is_digits, push_key, segment_of};
use std::alloc::{AllocError, Global};
use xb_model::{Digit, Key};
use xb_sound::Cadence;
use xb_text::first_piece;

// Puts the keys of digits after the segments.
fn push_digits(
    segments: &mut Vec<Segment>,
    cadence: Cadence,
    digits: &[u8],
) -> Result<(), AllocError>
    ensures { OnOk result
        (segments.new.items ≡ segments.old.items ++ flat_map (digit_segments cadence) digits.now) }
{
    for byte in digits {
        if let Some(digit) = Digit::from_ascii(*byte) {
            push_key(segments, cadence, &Name::Key(Key::Digit(digit)))?;
        }
    }
    Ok(())
}

// What sounds by a word; `None` where it is none.
fn word_segments(
    alloc: Global,
    cadence: Cadence,
    word: &[u8],
) -> Result<Option<Vec<Segment>>, AllocError>
    ensures { IfOk result (λ said.
        option_map (λ segments. segments.items) said ≡ word_segments cadence word.now) }
{
    let mut segments = Vec::new(alloc);
    if is_digits(word) {
        push_digits(&mut segments, cadence, word)?;
        return Ok(Some(segments));
    }
    if let Some(name) = name_of(word) {
        push_key(&mut segments, cadence, &name)?;
        return Ok(Some(segments));
    }
    match segment_of(word) {
        Some(segment) => {
            segments.push(segment)?;
            Ok(Some(segments))
        }
        None => Ok(None),
    }
}

// Puts what sounds by a word after the segments.
fn take_word(
    alloc: Global,
    place: Place,
    cadence: Cadence,
    setting: &Setting,
    word: &[u8],
    segments: &mut Vec<Segment>,
) -> Result<(), KeysFault>
    ensures taken { OnOk result (TakesWord place cadence setting.now word.now
        segments.old.items segments.new.items) }
    ensures fault { IfErr result (IsFaultOfWord place cadence setting.now word.now) }
{
    match word_segments(alloc, cadence, word)? {
        Some(mut said) => {
            if !setting.clip && !all_fit(setting, &said) {
                return Err(KeysFault::Loud(place));
            }
            segments.append(&mut said)?;
            Ok(())
        }
        None => Err(KeysFault::NoWord(place)),
    }
}

// The place after a piece between blanks; one without bytes is no word.
fn next_place(place: Place, piece: &[u8]) -> Place
    requires words { place.word + 1 < 2 ^ 64 }
    requires bytes { place.byte + length piece.now + 1 < 2 ^ 64 }
    ensures { result ≡ next_place place piece.now }
{
    let byte = place.byte + piece.len() + 1;
    if piece.is_empty() {
        Place {
            word: place.word,
            byte,
        }
    } else {
        Place {
            word: place.word + 1,
            byte,
        }
    }
}

// Puts what sounds by a piece between blanks after the segments.
fn take_piece(
    alloc: Global,
    place: Place,
    cadence: Cadence,
    setting: &Setting,
    piece: &[u8],
    segments: &mut Vec<Segment>,
) -> Result<(), KeysFault>
    ensures taken { OnOk result (TakesPiece place cadence setting.now piece.now
        segments.old.items segments.new.items) }
    ensures fault { IfErr result (StopsBy place cadence setting.now piece.now) }
{
    if piece.is_empty() {
        return Ok(());
    }
    take_word(alloc, place, cadence, setting, piece, segments)
}

// Whether a text has nothing but blanks.
fn is_blank(text: &[u8]) -> bool
    ensures { result ≡ is_blank text.now }
{
    text.iter().all(|byte| *byte == b' ')
}

// The silence before the words.
fn first_segment(alloc: Global, cadence: Cadence) -> Result<Vec<Segment>, AllocError>
    ensures { IfOk result (λ segments. segments.items ≡ silent cadence.lead_ms ∷ []) }
{
    let mut segments = Vec::new(alloc);
    segments.push(Segment::silent(cadence.lead_ms))?;
    Ok(segments)
}

/// What sounds by the words of a text, which stand apart by blanks, after the silence before them. `Err` tells the
/// first word that is none, or whose sound by the setting may have samples of more than 16 bits, unless these are cut;
/// or that there is no word, or memory ran out.
pub fn segments_of_text(
    alloc: Global,
    cadence: Cadence,
    setting: &Setting,
    text: &[u8],
) -> Result<Vec<Segment>, KeysFault>
    requires { length text.now + 3 < 2 ^ 64 }
    ensures segments { IfOk result (λ segments.
        segments_of_text cadence setting.now text.now ≡ Ok segments.items) }
    ensures fault { IfErr result (IsFault (segments_of_text cadence setting.now text.now)) }
{
    if is_blank(text) {
        return Err(KeysFault::NoWords);
    }
    let mut segments = first_segment(alloc, cadence)?;
    let mut place = Place { word: 1, byte: 1 };
    let mut left = Some(text);
    while let Some(rest) = left {
        let (piece, later) = first_piece(b' ', rest);
        left = later;
        take_piece(alloc, place, cadence, setting, piece, &mut segments)?;
        place = next_place(place, piece);
    }
    Ok(segments)
}

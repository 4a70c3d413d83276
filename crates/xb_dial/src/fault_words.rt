// The faults of a dial that a word says.
ghost use Rattle.std.specs.Prelude.{◌≡◌, ◌∷◌, ◌++◌, [], IfErr, IfOk, None, Some, codes, option_map};
ghost use Rattle.xb_text.specs.Pieces.{pieces};
ghost use Rattle.xb_dial.specs.FaultWords.{IsNoFaults, fault_of, fault_said, faults_after, faults_said, kind_said, lasting, number_said, place_in_call, place_said, said_with_ms, said_without_ms};

use std::alloc::Global;
use xb_command::{Answer, Misfit};
use xb_contact::number_of;
use xb_model::GREATEST_MS;
use xb_text::{cut_at, first_piece};
use xb_worn::{DigitFault, DigitPlace, Fault, PulseFault, PulsePlace};

// A place of calls: a call, a digit or a pulse.
#[derive(Clone, Copy)]
enum Place {
    // The call of this number.
    Call(usize),
    // A digit.
    Digit(DigitPlace),
    // A pulse.
    Pulse(PulsePlace),
}

// What a fault does.
#[derive(Clone, Copy)]
enum Kind {
    // A pulse has a break of so many ms.
    Break(u32),
    // A pulse does not come.
    Lost,
    // A pulse comes once more.
    Extra,
    // A digit ends with a make of so many ms.
    Pause(u32),
    // After a digit the hook is flashed, for so many ms.
    Flash(u32),
    // A call begins with a preliminary pulse of so many ms.
    Preliminary(u32),
}

// A number of a call, a digit or a pulse; all of them count from 1, but that it is there is no matter of words.
fn number_said(text: &[u8]) -> Option<usize>
    ensures { result ≡ number_said text.now }
{
    let number = number_of(text)?;
    if number <= u64::from(u32::MAX) {
        Some(number as usize)
    } else {
        None
    }
}

// A time in ms, from 1 to those of a day.
fn lasting(text: &[u8]) -> Option<u32>
    ensures { result ≡ lasting text.now }
{
    let ms = number_of(text)?;
    if 1 <= ms && ms <= u64::from(GREATEST_MS) {
        Some(ms as u32)
    } else {
        None
    }
}

// The digit, or the pulse, of a call: `3`, or `3.2`.
fn place_in_call(call: usize, text: &[u8]) -> Option<Place>
    ensures { result ≡ place_in_call call text.now }
{
    match cut_at(b'.', text) {
        None => Some(Place::Digit(DigitPlace {
            call,
            digit: number_said(text)?,
        })),
        Some((digit, pulse)) => Some(Place::Pulse(PulsePlace {
            place: DigitPlace {
                call,
                digit: number_said(digit)?,
            },
            pulse: number_said(pulse)?,
        })),
    }
}

// A place, as `1`, `1.3` or `1.3.2`.
fn place_said(text: &[u8]) -> Option<Place>
    ensures { result ≡ place_said text.now }
{
    match cut_at(b'.', text) {
        None => Some(Place::Call(number_said(text)?)),
        Some((call, place)) => place_in_call(number_said(call)?, place),
    }
}

// What a word says without ms.
fn said_without_ms(name: &[u8]) -> Option<Kind>
    ensures { result ≡ said_without_ms name.now }
{
    if name == b"lost".as_slice() {
        Some(Kind::Lost)
    } else if name == b"extra".as_slice() {
        Some(Kind::Extra)
    } else {
        None
    }
}

// What a word says of so many ms.
fn said_with_ms(name: &[u8], ms: u32) -> Option<Kind>
    ensures { result ≡ said_with_ms name.now ms }
{
    if name == b"break".as_slice() {
        Some(Kind::Break(ms))
    } else if name == b"pause".as_slice() {
        Some(Kind::Pause(ms))
    } else if name == b"flash".as_slice() {
        Some(Kind::Flash(ms))
    } else if name == b"preliminary".as_slice() {
        Some(Kind::Preliminary(ms))
    } else {
        None
    }
}

// What a fault does, as `lost` or `break=130`.
fn kind_said(text: &[u8]) -> Option<Kind>
    ensures { result ≡ kind_said text.now }
{
    match cut_at(b'=', text) {
        None => said_without_ms(text),
        Some((name, ms)) => said_with_ms(name, lasting(ms)?),
    }
}

// The fault at a place, where it can be there.
fn fault_of(place: Place, kind: Kind) -> Option<Fault>
    ensures { result ≡ fault_of place kind }
{
    match (place, kind) {
        (Place::Pulse(at), Kind::Break(ms)) => Some(Fault::Pulse(at, PulseFault::Break(ms))),
        (Place::Pulse(at), Kind::Lost) => Some(Fault::Pulse(at, PulseFault::Lost)),
        (Place::Pulse(at), Kind::Extra) => Some(Fault::Pulse(at, PulseFault::Extra)),
        (Place::Digit(at), Kind::Pause(ms)) => Some(Fault::Digit(at, DigitFault::Pause(ms))),
        (Place::Digit(at), Kind::Flash(ms)) => Some(Fault::Digit(at, DigitFault::Flash(ms))),
        (Place::Call(call), Kind::Preliminary(ms)) => Some(Fault::Preliminary(call, ms)),
        _ => None,
    }
}

// The fault that a word says, as `1.3.2:break=130`.
fn fault_said(word: &[u8]) -> Option<Fault>
    ensures { result ≡ fault_said word.now }
{
    let (place, kind) = cut_at(b':', word)?;
    fault_of(place_said(place)?, kind_said(kind)?)
}

// What is said of a word without a fault that there is.
const KINDS: &str = "lost, extra, break=MS, pause=MS, flash=MS or preliminary=MS is wanted after :";

// Why a word does not say what a fault does.
fn reason_of_kind(text: &[u8]) -> &'static str {
    let (name, has_value) = match cut_at(b'=', text) {
        None => (text, false),
        Some((name, _)) => (name, true),
    };
    match (said_without_ms(name), said_with_ms(name, 1), has_value) {
        (Some(_), _, true) => "lost and extra have no value",
        (_, Some(_), false) => "= and ms are wanted after it, as in 1.3.2:break=130",
        (_, Some(_), true) => "a whole number of ms from 1 to 86400000 is wanted after =",
        _ => KINDS,
    }
}

// Why such a fault is not at a place that there is.
fn reason_of_place(kind: Kind) -> &'static str {
    match kind {
        Kind::Break(_) | Kind::Lost | Kind::Extra => {
            "break, lost and extra are of a pulse, as in 1.3.2:lost"
        }
        Kind::Pause(_) | Kind::Flash(_) => {
            "pause and flash come after a digit, as in 1.3:pause=700"
        }
        Kind::Preliminary(_) => "preliminary comes before a call, as in 1:preliminary=30",
    }
}

// Why a word says no fault.
fn reason_of(word: &[u8]) -> &'static str {
    let Some((place, kind)) = cut_at(b':', word) else {
        return "a place, : and a fault are wanted, as in 1.3.2:lost";
    };
    if place_said(place).is_none() {
        return "the number of a call, a digit or a pulse is wanted before :, as 1, 1.3 or 1.3.2";
    }
    match kind_said(kind) {
        Some(kind) => reason_of_place(kind),
        None => reason_of_kind(kind),
    }
}

// What is shown of a text with such a word: the word, or where it names no place the whole.
fn shown_of<'a>(word: &'a [u8], text: &'a str) -> &'a str {
    match str::from_utf8(word) {
        Ok(word) if word.contains(':') => word,
        _ => text,
    }
}

// What is said of a text with a word that is no fault.
fn misfit_of<'a>(word: &'a [u8], text: &'a str) -> Misfit<'a>
    ensures { result.option.now ≡ codes "fault" }
{
    Misfit {
        option: "fault",
        value: shown_of(word, text),
        reason: reason_of(word),
    }
}

// The faults of a text, between commas.
fn faults_of<'a>(alloc: Global, text: &'a str) -> Result<Vec<Fault>, Answer<'a>>
    ensures said { IfOk result (λ faults. faults_after [] (pieces 44 text.entry.now) ≡ Some faults.items) }
    ensures none { IfErr result (IsNoFaults (Some text.entry.now)) }
{
    let mut faults = Vec::new(alloc);
    let mut left = Some(text.as_bytes());
    while let Some(words) = left {
        let (word, later) = first_piece(b',', words);
        let Some(fault) = fault_said(word) else {
            return Err(Answer::Unfit(misfit_of(word, text)));
        };
        if faults.push(fault).is_err() {
            return Err(Answer::NoMemory);
        }
        left = later;
    }
    Ok(faults)
}

/// The faults that the text of an option says, between commas, as `1.3.2:break=130,2:preliminary=30`: none, where the
/// option is not there. `Unfit` where a word is no fault. Whether its place is there is no matter of words.
pub(crate) fn faults_said<'a>(
    alloc: Global,
    text: Option<&'a str>,
) -> Result<Vec<Fault>, Answer<'a>>
    ensures said { let named = option_map (λ text. text.now) text.entry in
        IfOk result (λ faults. faults_said named ≡ Some faults.items) }
    ensures none { let named = option_map (λ text. text.now) text.entry in
        IfErr result (IsNoFaults named) }
{
    match text {
        None => Ok(Vec::new(alloc)),
        Some(text) => faults_of(alloc, text),
    }
}

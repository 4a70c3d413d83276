// The limits that words name.
ghost use Rattle.std.specs.Prelude.{◌≡◌, option_map};
ghost use Rattle.xb_bench.specs.LimitWords.{asked_limits, bench_limits, limit_named, limits_after, limits_of, limits_said};
ghost use Rattle.xb_bench.specs.LimitWords.{ms_said, none_said, said_of, with_limit, with_word};
ghost use Rattle.xb_text.specs.Pieces.{pieces};

use xb_contact::number_of;
use xb_model::{GREATEST_LIMIT, Limits};
use xb_routes::limits_by;
use xb_text::{cut_at, first_piece};

/// A limit, by its name in a route table.
#[derive(Clone, Copy)]
pub enum Limit {
    /// `pulse_min`.
    PulseMin,
    /// `pulse_max`.
    PulseMax,
    /// `make_min`.
    MakeMin,
    /// `pause`.
    Pause,
    /// `release`.
    Release,
    /// `timeout`.
    Timeout,
}

/// Limits that words say, each in ms; of the others they say nothing.
#[derive(Clone, Copy)]
pub struct SaidLimits {
    /// The shortest break that is a pulse.
    pub pulse_min: Option<u32>,
    /// The longest break that is a pulse.
    pub pulse_max: Option<u32>,
    /// The shortest make between two pulses.
    pub make_min: Option<u32>,
    /// From how many ms on a make ends the digit.
    pub pause: Option<u32>,
    /// From how many ms on a break hangs up.
    pub release: Option<u32>,
    /// From how many ms on a make times out.
    pub timeout: Option<u32>,
}

const NONE_SAID: SaidLimits = SaidLimits {
    pulse_min: None,
    pulse_max: None,
    make_min: None,
    pause: None,
    release: None,
    timeout: None,
};

// The limit of a name.
fn limit_named(name: &[u8]) -> Option<Limit>
    ensures { result ≡ limit_named name.now }
{
    if name == b"pulse_min".as_slice() {
        Some(Limit::PulseMin)
    } else if name == b"pulse_max".as_slice() {
        Some(Limit::PulseMax)
    } else if name == b"make_min".as_slice() {
        Some(Limit::MakeMin)
    } else if name == b"pause".as_slice() {
        Some(Limit::Pause)
    } else if name == b"release".as_slice() {
        Some(Limit::Release)
    } else if name == b"timeout".as_slice() {
        Some(Limit::Timeout)
    } else {
        None
    }
}

// The ms that digits write, from 1 to the greatest limit.
fn ms_said(digits: &[u8]) -> Option<u32>
    ensures { result ≡ ms_said digits.now }
{
    let ms = number_of(digits)?;
    if ms == 0 || ms > u64::from(GREATEST_LIMIT) {
        return None;
    }
    Some(ms as u32)
}

// The standard limits without a time-out, since on the bench no register waits: it is 2^32 - 1 ms.
fn bench_limits() -> Limits
    ensures { result ≡ bench_limits }
{
    Limits {
        timeout: u32::MAX,
        ..Limits::standard()
    }
}

impl SaidLimits {
    // What is said of a limit.
    fn said_of(self, limit: Limit) -> Option<u32>
        ensures { result ≡ said_of self limit }
    {
        match limit {
            Limit::PulseMin => self.pulse_min,
            Limit::PulseMax => self.pulse_max,
            Limit::MakeMin => self.make_min,
            Limit::Pause => self.pause,
            Limit::Release => self.release,
            Limit::Timeout => self.timeout,
        }
    }

    // With so many ms of a limit.
    fn with_limit(self, limit: Limit, ms: u32) -> SaidLimits
        ensures { result ≡ with_limit self limit ms }
    {
        let mut said = self;
        match limit {
            Limit::PulseMin => said.pulse_min = Some(ms),
            Limit::PulseMax => said.pulse_max = Some(ms),
            Limit::MakeMin => said.make_min = Some(ms),
            Limit::Pause => said.pause = Some(ms),
            Limit::Release => said.release = Some(ms),
            Limit::Timeout => said.timeout = Some(ms),
        }
        said
    }

    // With a word more, as `pause=200`; `None` where there is no such limit, or it was said.
    fn with_word(self, word: &[u8]) -> Option<SaidLimits>
        ensures { result ≡ with_word self word.now }
    {
        let (name, digits) = cut_at(b'=', word)?;
        let limit = limit_named(name)?;
        if self.said_of(limit).is_some() {
            return None;
        }
        Some(self.with_limit(limit, ms_said(digits)?))
    }

    // The limits that are said, and else the standard ones, with this time-out where none is.
    fn asked(self, timeout: u32) -> Limits
        ensures { result ≡ asked_limits self timeout }
    {
        let standard = Limits::standard();
        Limits {
            pulse_min: self.pulse_min.unwrap_or(standard.pulse_min),
            pulse_max: self.pulse_max.unwrap_or(standard.pulse_max),
            make_min: self.make_min.unwrap_or(standard.make_min),
            pause: self.pause.unwrap_or(standard.pause),
            release: self.release.unwrap_or(standard.release),
            timeout: self.timeout.unwrap_or(timeout),
        }
    }

    // The same without a time-out where none is said; `None` where no table may have them, by any time-out.
    fn limits(self) -> Option<Limits>
        ensures { result ≡ limits_of self }
    {
        match limits_by(self.asked(GREATEST_LIMIT)) {
            Ok(_) => Some(self.asked(u32::MAX)),
            Err(_) => None,
        }
    }
}

// What words between commas say.
fn limits_after(text: &[u8]) -> Option<SaidLimits>
    ensures { result ≡ limits_after none_said (pieces 44 text.now) }
{
    let mut said = NONE_SAID;
    let mut left = Some(text);
    while let Some(text) = left {
        let (word, later) = first_piece(b',', text);
        said = said.with_word(word)?;
        left = later;
    }
    Some(said)
}

/// The limits that a word says, as `pulse_max=130,pause=200`, each in ms and once, by their names in a route table; the
/// others are the standard ones, without a time-out. `None` where there is no such limit, or a route table may not have
/// these limits.
pub(crate) fn limits_said(text: Option<&str>) -> Option<Limits>
    ensures { result ≡ limits_said (option_map (λ text. text.now) text.entry) }
{
    let Some(text) = text else {
        return Some(bench_limits());
    };
    limits_after(text.as_bytes())?.limits()
}

/// Why a word says no limits.
pub(crate) fn reason_against(text: &str) -> &'static str {
    match limits_after(text.as_bytes()) {
        Some(_) => {
            "pulse_min is at most pulse_max, and that under release; make_min is at most pause, and that under timeout"
        }
        None => {
            "each is NAME=MS, a whole number of 1 to 1000000, and none stands twice: pulse_min, pulse_max, make_min, pause, release, timeout"
        }
    }
}

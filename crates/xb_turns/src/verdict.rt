// How a dial is judged.
ghost use Rattle.std.specs.Prelude.{◌≡◌};
ghost use Rattle.xb_turns.specs.Verdicts.{is_within, verdict_by, verdict_of, word_of};

use crate::windows::{Window, Windows};

/// How a dial is judged by a digit.
#[derive(Clone, Copy, Debug, PartialEq, Eq)]
pub enum Verdict {
    /// Its speed is that to which dials are adjusted, and its share is within the window.
    Good,
    /// Both are accepted.
    Pass,
    /// Its speed is above what is accepted.
    Fast,
    /// Its speed is below what is accepted.
    Slow,
    /// Its speed is accepted, and more of the time is break.
    High,
    /// Its speed is accepted, and less of the time is break.
    Low,
}

/// A digit of so many pulses is judged.
pub const JUDGED_PULSES: usize = 5;

// Whether a figure lies in a window.
fn is_within(window: Window, tenths: u128) -> bool
    ensures { result ≡ is_within window tenths }
{
    u128::from(window.least) <= tenths && tenths <= u128::from(window.most)
}

// By a speed and a share.
fn verdict_by(windows: Windows, speed: u128, share: u128) -> Verdict
    ensures { result ≡ verdict_by windows speed share }
{
    if speed > u128::from(windows.accept.most) {
        return Verdict::Fast;
    }
    if speed < u128::from(windows.accept.least) {
        return Verdict::Slow;
    }
    if share > u128::from(windows.share.most) {
        return Verdict::High;
    }
    if share < u128::from(windows.share.least) {
        return Verdict::Low;
    }
    if is_within(windows.adjust, speed) {
        Verdict::Good
    } else {
        Verdict::Pass
    }
}

/// How a dial is judged by a digit of so many pulses with these figures in tenths; `None` of fewer than five.
pub fn verdict_of(
    windows: Windows,
    pulses: usize,
    speed: Option<u128>,
    share: Option<u128>,
) -> Option<Verdict>
    ensures { result ≡ verdict_of windows pulses speed share }
{
    match (speed, share) {
        (Some(speed), Some(share)) if pulses >= JUDGED_PULSES => {
            Some(verdict_by(windows, speed, share))
        }
        _ => None,
    }
}

/// Its word.
pub fn word_of(verdict: Option<Verdict>) -> &'static str
    ensures { result.now ≡ word_of verdict }
{
    match verdict {
        None => "-",
        Some(Verdict::Good) => "GOOD",
        Some(Verdict::Pass) => "PASS",
        Some(Verdict::Fast) => "FAST",
        Some(Verdict::Slow) => "SLOW",
        Some(Verdict::High) => "HIGH",
        Some(Verdict::Low) => "LOW",
    }
}

// Keys with their times.
ghost use Rattle.std.specs.Prelude.{◌≡◌};
ghost use Rattle.xb_incoming.specs.Attempts.{is_clear, times_out};

use xb_model::Digit;

/// The silence inside a keying by which a register times out unless another one is asked for, in ms.
pub const TIME_OUT_MS: u64 = 10_000;

/// The silence after which a register hears again, once a keying was mutilated, in ms.
pub const CLEAR_MS: u64 = 500;

/// The greatest count of digits that is told; it stands for more, too.
pub const MOST_COUNT: u8 = 255;

/// What a pair of tones is to a register.
#[derive(Clone, Copy, Debug, PartialEq, Eq)]
pub enum Symbol {
    /// A digit.
    Digit(Digit),
    /// KP, which opens the register.
    Kp,
    /// ST, which ends a number.
    St,
    /// A pair that is none of these.
    Other,
}

/// A key that was heard.
#[derive(Clone, Copy, Debug, PartialEq, Eq)]
pub struct TimedKey {
    /// What it is.
    pub what: Symbol,
    /// When it began, in ms from the beginning of the sound.
    pub begin_ms: u64,
    /// When it ended.
    pub end_ms: u64,
}

// Whether a silence from one moment to another is a time-out.
pub(crate) fn times_out(limit: u64, last: u64, now: u64) -> bool
    ensures { result ≡ times_out limit last now }
{
    limit <= now.saturating_sub(last)
}

// Whether it lets a register hear again.
pub(crate) fn is_clear(last: u64, now: u64) -> bool
    ensures { result ≡ is_clear last now }
{
    CLEAR_MS <= now.saturating_sub(last)
}

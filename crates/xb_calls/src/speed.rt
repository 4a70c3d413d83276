// The speed of a dial.
ghost use Rattle.std.specs.Prelude.{◌≡◌, ◌↔◌, IsOk, IfErr};
ghost use Rattle.xb_model.specs.LawfulLimits.{standard_limits};
ghost use Rattle.xb_calls.specs.Speeds.{Fits, IsFirstMisfit, ten_pulses_a_second, twenty_pulses_a_second};

use std::fmt;
use thiserror::Error;
use xb_model::{GREATEST_MS, Limits};

/// How long the makes and breaks of a dial last, each in ms.
#[derive(Clone, Copy, Debug, PartialEq, Eq)]
pub struct Speed {
    /// The break of a pulse.
    pub break_ms: u32,
    /// The make between two pulses of a digit.
    pub make_ms: u32,
    /// The make after the last pulse of a digit.
    pub pause_ms: u32,
    /// The make that seizes a register, before the first digit.
    pub seize_ms: u32,
    /// The break that hangs up, between two calls of a line.
    pub hang_up_ms: u32,
}

/// The first time of a speed that does not fit the limits.
#[derive(Clone, Copy, Debug, PartialEq, Eq, Error)]
pub enum SpeedFault {
    /// The break is shorter than `pulse_min` or longer than `pulse_max`.
    Break,
    /// The make is shorter than `make_min`, or not shorter than `pause`.
    Make,
    /// The pause is shorter than the limit `pause`, or not shorter than `timeout`.
    Pause,
    /// The seizing make is 0, or not shorter than `timeout`.
    Seize,
    /// The hang-up is shorter than `release`, or over 86,400,000 ms.
    HangUp,
}

impl fmt::Display for SpeedFault {
    ghost use Rattle.std.specs.Prelude.{Some};
    ghost use Rattle.xb_calls.specs.FaultTexts.{speed_text};

    ghost output = { λ fault. Some (speed_text fault) };

    fn fmt<W: fmt::Write>(&self, f: &mut fmt::Formatter<W>) -> fmt::Result {
        match self {
            SpeedFault::Break => f.write_str("the break is no pulse"),
            SpeedFault::Make => f.write_str("the make is too short, or a pause"),
            SpeedFault::Pause => f.write_str("the pause is too short, or a time-out"),
            SpeedFault::Seize => f.write_str("the seizing make is 0, or a time-out"),
            SpeedFault::HangUp => f.write_str("the hang-up is no release, or longer than a day"),
        }
    }
}

// The times that the standard speeds share.
const PAUSE_MS: u32 = 600;

const SEIZE_MS: u32 = 500;

const HANG_UP_MS: u32 = 400;

impl Speed {
    /// 10 pulses a second: breaks of 60 ms and makes of 40 ms, a pause of 600, a seizing make of 500
    /// and a hang-up of 400 ms. It fits the standard limits.
    pub fn ten() -> Speed
        ensures value { result ≡ ten_pulses_a_second }
        ensures fits { Fits standard_limits result }
    {
        Speed {
            break_ms: 60,
            make_ms: 40,
            pause_ms: PAUSE_MS,
            seize_ms: SEIZE_MS,
            hang_up_ms: HANG_UP_MS,
        }
    }

    /// 20 pulses a second: breaks of 30 ms and makes of 20 ms, the rest as at 10. It fits the standard
    /// limits.
    pub fn twenty() -> Speed
        ensures value { result ≡ twenty_pulses_a_second }
        ensures fits { Fits standard_limits result }
    {
        Speed {
            break_ms: 30,
            make_ms: 20,
            pause_ms: PAUSE_MS,
            seize_ms: SEIZE_MS,
            hang_up_ms: HANG_UP_MS,
        }
    }

    /// Whether the speed fits limits, as dialled numbers are heard by them: the break is a pulse; the
    /// make is none too short, and no pause; the pause is one, and no time-out; the seizing make is
    /// not 0, and no time-out; the hang-up is a release, of a day at the most. `Err` tells the first
    /// of these, in this order, that does not fit.
    pub fn fits(self, limits: Limits) -> Result<(), SpeedFault>
        ensures fits { IsOk result ↔ Fits limits self }
        ensures misfit { IfErr result (λ fault. IsFirstMisfit limits self fault) }
    {
        if self.break_ms < limits.pulse_min || self.break_ms > limits.pulse_max {
            Err(SpeedFault::Break)
        } else if self.make_ms < limits.make_min || self.make_ms >= limits.pause {
            Err(SpeedFault::Make)
        } else if self.pause_ms < limits.pause || self.pause_ms >= limits.timeout {
            Err(SpeedFault::Pause)
        } else if self.seize_ms == 0 || self.seize_ms >= limits.timeout {
            Err(SpeedFault::Seize)
        } else if self.hang_up_ms < limits.release || self.hang_up_ms > GREATEST_MS {
            Err(SpeedFault::HangUp)
        } else {
            Ok(())
        }
    }
}

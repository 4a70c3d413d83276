// How long the tones of a keying last, and the silences between them.
ghost use Rattle.std.specs.Prelude.{◌≡◌, ◌↔◌, IsOk, IfErr, IsTrue};
ghost use Rattle.xb_sound.specs.Cadences.{chosen_cadence, chosen_ms, standard_cadence, IsLawful, IsFirstMisfit, IsSetApart, IsToneTime, tone_ms};

use std::fmt;
use thiserror::Error;
use xb_model::Key;

/// The longest silence before a keying, in ms: a limit of our own.
pub const LONGEST_LEAD_MS: u16 = 60_000;

/// The longest tone, and the longest silence after one, in ms: a limit of our own.
pub const LONGEST_MS: u16 = 10_000;

/// How long the tones of a keying last, and the silences between them, each in ms. They lie in memory as C has them, for
/// a caller of another language.
#[repr(C)]
#[derive(Clone, Copy, Debug, PartialEq, Eq)]
pub struct Cadence {
    /// The silence before KP.
    pub lead_ms: u16,
    /// The tone of KP.
    pub kp_ms: u16,
    /// The tone of a digit, and of ST.
    pub key_ms: u16,
    /// The silence after each tone, ST too.
    pub gap_ms: u16,
}

/// The first time of a cadence that is out of its range.
#[derive(Clone, Copy, Debug, PartialEq, Eq, Error)]
pub enum CadenceFault {
    /// The silence before KP is too long.
    Lead,
    /// The tone of KP has 0 ms, or is too long.
    Kp,
    /// The tone of a digit and of ST has 0 ms, or is too long.
    Key,
    /// The silence after a tone is too long.
    Gap,
}

impl fmt::Display for CadenceFault {
    ghost use Rattle.std.specs.Prelude.{Some};
    ghost use Rattle.xb_sound.specs.FaultTexts.{cadence_text};

    ghost output = { λ fault. Some (cadence_text fault) };

    fn fmt<W: fmt::Write>(&self, f: &mut fmt::Formatter<W>) -> fmt::Result {
        match self {
            CadenceFault::Lead => f.write_str("the silence before KP is too long"),
            CadenceFault::Kp => f.write_str("the tone of KP has 0 ms or is too long"),
            CadenceFault::Key => f.write_str("the tone of a digit has 0 ms or is too long"),
            CadenceFault::Gap => f.write_str("the silence after a tone is too long"),
        }
    }
}

// Whether a tone may last so long.
fn is_tone_time(ms: u16) -> bool
    ensures { IsTrue result ↔ IsToneTime ms }
{
    0 < ms && ms <= LONGEST_MS
}

// A time that is given, up to the longest that is told apart, or else that of the standard.
fn chosen_ms(given: Option<u32>, standard: u16) -> u16
    ensures { result ≡ chosen_ms given standard }
{
    match given {
        Some(ms) => ms.min(65_535) as u16,
        None => standard,
    }
}

impl Cadence {
    /// The cadence of a sender: KP of 100 ms, digits and ST of 68 ms, and 68 ms between two tones
    /// ("Notes on Distance Dialing"), after a silence of 500 ms.
    pub fn standard() -> Cadence
        ensures value { result ≡ standard_cadence }
        ensures lawful { IsLawful result }
        ensures apart { IsSetApart result }
    {
        Cadence {
            lead_ms: 500,
            kp_ms: 100,
            key_ms: 68,
            gap_ms: 68,
        }
    }

    /// The standard cadence, with each time that is given in place of its own, in ms: the silence before KP, the tone
    /// of KP, that of a digit and of ST, and the silence after a tone. A time over 65,535 ms counts as that.
    pub fn chosen(
        lead_ms: Option<u32>,
        kp_ms: Option<u32>,
        key_ms: Option<u32>,
        gap_ms: Option<u32>,
    ) -> Cadence
        ensures { result ≡ chosen_cadence lead_ms kp_ms key_ms gap_ms }
    {
        let standard = Cadence::standard();
        Cadence {
            lead_ms: chosen_ms(lead_ms, standard.lead_ms),
            kp_ms: chosen_ms(kp_ms, standard.kp_ms),
            key_ms: chosen_ms(key_ms, standard.key_ms),
            gap_ms: chosen_ms(gap_ms, standard.gap_ms),
        }
    }

    /// Whether each time is in its range. `Err` tells the first that is not: lead, KP, digit, gap. Which
    /// receiver hears such keys is another matter.
    pub fn check(self) -> Result<(), CadenceFault>
        ensures lawful { IsOk result ↔ IsLawful self }
        ensures misfit { IfErr result (λ fault. IsFirstMisfit self fault) }
    {
        if self.lead_ms > LONGEST_LEAD_MS {
            Err(CadenceFault::Lead)
        } else if !is_tone_time(self.kp_ms) {
            Err(CadenceFault::Kp)
        } else if !is_tone_time(self.key_ms) {
            Err(CadenceFault::Key)
        } else if self.gap_ms > LONGEST_MS {
            Err(CadenceFault::Gap)
        } else {
            Ok(())
        }
    }

    // How long the tone of a key lasts.
    pub(crate) fn tone_ms(self, key: Key) -> u16
        ensures { result ≡ tone_ms self key }
    {
        match key {
            Key::Kp => self.kp_ms,
            Key::Digit(_) | Key::St => self.key_ms,
        }
    }
}

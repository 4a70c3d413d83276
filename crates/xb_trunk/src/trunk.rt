// A trunk and what waits to be heard on it.
ghost use Rattle.std.specs.Prelude.{◌≡◌, ◌≤◌, drop, length, min};

use crate::fault::TrunkFault;
use crate::sample_blocks::{write_silence, write_sound};
use std::alloc::{AllocError, Global};
use std::io::Write;
use std::marker::Model;
use xb_model::Mark;
use xb_sound::{Cadence, samples_of};

// How many samples a ms has.
const SAMPLES_PER_MS: u64 = 8;

/// A trunk, and the samples that wait to be heard on it.
///
/// It holds the samples of the calls that are not yet heard whole, and nothing else.
#[derive(Drop)]
pub struct Trunk {
    cadence: Cadence,
    // The samples of these calls.
    samples: Vec<i16>,
    // How many of them were written.
    written: usize,
}

// Clauses see the cadence, and the samples that wait.
impl Model for Trunk {
    ghost use Rattle.std.specs.Prelude.{◌≤◌, drop, length};
    ghost use Rattle.xb_trunk.specs.Sounded.{Waits};

    ghost Value = { Waits };

    ghost view = { λ t. record { cadence = t.cadence; waiting = drop t.written t.samples.items } };

    ghost invariant = { λ t. t.written ≤ length t.samples.items };
}

// How many of the samples that were not written are among so many.
fn part_of(samples: &[i16], written: usize, wanted: u64) -> usize
    requires { written ≤ length samples.now }
    ensures { result ≡ min wanted (length (drop written samples.now)) }
{
    let waiting = samples.len() - written;
    wanted.min(waiting as u64) as usize
}

impl Trunk {
    ghost use Rattle.std.specs.Prelude.{[], ◌*◌, ◌++◌, OnOk};
    ghost use Rattle.std.specs.Io.KnownBytes.{Appends};
    ghost use Rattle.xb_sound.specs.Sounds.{sound_of};
    ghost use Rattle.xb_sound.specs.Wavs.{pcm_of};
    ghost use Rattle.xb_text.specs.Writing.{AppendsBeginning};
    ghost use Rattle.xb_trunk.specs.Sounded.{fitted, left_by, step_of};

    /// A trunk on which nothing waits, whose calls sound by this cadence.
    pub fn new(alloc: Global, cadence: Cadence) -> Trunk
        ensures cadence { result.cadence ≡ cadence }
        ensures silent { result.waiting ≡ [] }
    {
        Trunk {
            cadence,
            samples: Vec::new(alloc),
            written: 0,
        }
    }

    // Lets go of what was written, where it is half of the samples or more: so a sample is copied once at most, in the
    // mean, however many calls wait.
    fn let_go(&mut self, alloc: Global) -> Result<(), AllocError>
        ensures waits { OnOk result (self.new.waiting ≡ self.old.waiting) }
        ensures cadence { self.new.cadence ≡ self.old.cadence }
    {
        if self.written < self.samples.len() / 2 {
            return Ok(());
        }
        let mut samples = Vec::new(alloc);
        samples.extend_from_slice(&self.samples[self.written..])?;
        self.samples = samples;
        self.written = 0;
        Ok(())
    }

    // Lets the sound of marks wait, after what waits already.
    fn push(&mut self, alloc: Global, marks: &[Mark]) -> Result<(), AllocError>
        ensures waits { OnOk result
            (self.new.waiting ≡ self.old.waiting ++ sound_of self.old.cadence marks.now) }
        ensures cadence { self.new.cadence ≡ self.old.cadence }
    {
        let sound = samples_of(alloc, marks, self.cadence)?;
        self.let_go(alloc)?;
        self.samples.extend_from_slice(&sound)?;
        Ok(())
    }

    // Writes the samples of so many ms: the beginning of what waits, and silence after it.
    fn write_ms<W: Write>(&mut self, alloc: Global, out: &mut W, ms: u32) -> Result<(), TrunkFault>
        ensures whole { OnOk result (Appends (W.contents out.old) (W.contents out.new)
            (pcm_of (fitted (ms * 8) self.old.waiting))) }
        ensures beginning { AppendsBeginning (W.contents out.old) (W.contents out.new)
            (pcm_of (fitted (ms * 8) self.old.waiting)) }
        ensures waits { OnOk result (self.new.waiting ≡ drop (ms * 8) self.old.waiting) }
        ensures cadence { self.new.cadence ≡ self.old.cadence }
    {
        let wanted = u64::from(ms) * SAMPLES_PER_MS;
        let part = part_of(&self.samples, self.written, wanted);
        let end = self.written + part;
        write_sound(alloc, out, &self.samples[self.written..end])?;
        self.written = end;
        write_silence(alloc, out, wanted - part as u64)
    }

    /// Takes a row of the line, of so many ms, that completes these marks: it writes the row's samples, the beginning
    /// of what waits and silence after it, and with the row's end the sound of its marks waits too. On an `Err` the
    /// beginning of the row's samples was written.
    pub fn take_row<W: Write>(
        &mut self,
        alloc: Global,
        out: &mut W,
        ms: u32,
        marks: &[Mark],
    ) -> Result<(), TrunkFault>
        ensures whole { OnOk result (Appends (W.contents out.old) (W.contents out.new)
            (pcm_of (fitted (ms * 8) self.old.waiting))) }
        ensures beginning { AppendsBeginning (W.contents out.old) (W.contents out.new)
            (pcm_of (fitted (ms * 8) self.old.waiting)) }
        ensures waits { OnOk result (self.new.waiting
            ≡ left_by self.old.cadence self.old.waiting (step_of ms marks.now)) }
        ensures cadence { self.new.cadence ≡ self.old.cadence }
    {
        self.write_ms(alloc, out, ms)?;
        if marks.is_empty() {
            return Ok(());
        }
        self.push(alloc, marks)?;
        Ok(())
    }

    /// Writes all that waits. On an `Err` the beginning of it was written.
    pub fn write_rest<W: Write>(&self, alloc: Global, out: &mut W) -> Result<(), TrunkFault>
        ensures whole { OnOk result
            (Appends (W.contents out.old) (W.contents out.new) (pcm_of self.now.waiting)) }
        ensures beginning { AppendsBeginning (W.contents out.old) (W.contents out.new)
            (pcm_of self.now.waiting) }
    {
        write_sound(alloc, out, &self.samples[self.written..])
    }
}

//! What the definitions give: each law is the contract of a function that does nothing.
ghost use Rattle.xb_signal.specs.KnownSamples.{SamplesAreKnown};
ghost use Rattle.xb_signal.specs.Levels.{AmplitudesAreRounded};
ghost use Rattle.xb_signal.specs.WritingLaws.{FilesAreAsLong, LinearFilesAreWavs, MuLawFilesAreRead, MuLawIsNearest};
ghost use Rattle.xb_signal.specs.SignalLaws.{KeysAreHeard, KeysSoundAsMarks, NamesAreHeard, NothingIsCut, PlainKeysAreWritten, QuarterIsRound, SteadyGoesOn, WavesAreSines, WorkedText};
ghost use Rattle.std.specs.Prelude.{◌≡◌};
ghost use Rattle.xb_signal.specs.declared.segment.TheConstants.{MOST_TONES};
ghost use Rattle.xb_signal.specs.declared.word.TheConstants.{MOST_HZ, MOST_MS};

/// The quarter is one of a sine, and of a multiple of 100 Hz each sample is that of the tones of marks.
#[tactic(auto, using(crate::proofs::Sines::waves_are_sines, crate::proofs::Sines::quarter_is_round))]
pub fn waves_are_sines()
    ensures sines { WavesAreSines }
    ensures round { QuarterIsRound }
{}

/// Keys by their names sound as those of a page, and by any cadence that sets its tones apart a receiver hears them.
pub fn names_are_heard()
    ensures marks { KeysSoundAsMarks }
    ensures keys { KeysAreHeard }
    ensures names { NamesAreHeard }
{}

/// A key that is not detuned, whose tones begin with it and whose hole has 0 ms, sounds as its two frequencies.
#[tactic(auto, using(crate::proofs::PlainKeys::plain_keys_are_written))]
pub fn plain_keys_are_written()
    ensures { PlainKeysAreWritten }
{}

/// What sounds by a text.
#[tactic(auto, unfolding(crate::specs::Waves::quarter, crate::specs::Texts::segments_of_words))]
pub fn worked_text()
    ensures { WorkedText }
{}

/// The amplitude of each level is 10,000 times its power of ten, rounded.
#[tactic(auto, using(crate::proofs::Amplitudes::amplitudes_are_rounded))]
pub fn amplitudes_are_rounded()
    ensures { AmplitudesAreRounded }
{}

/// A file is as long as its segments say before any sample is made. Of samples of 16 bits it is that of `xb_sound`.
pub fn files_are_as_long()
    ensures length { FilesAreAsLong }
    ensures linear { LinearFilesAreWavs }
{}

/// By mu-law each sample has its nearest byte, and a reader of WAV files finds just these bytes.
pub fn mu_law_is_nearest()
    ensures bytes { MuLawIsNearest }
    ensures files { MuLawFilesAreRead }
{}

/// Each byte of mu-law stands for the sample that another program reads of it.
pub fn samples_are_known()
    ensures { SamplesAreKnown }
{}

/// A later sample of what sounds all through is that of its number too, so it is not broken where a segment ends.
pub fn steady_goes_on()
    ensures { SteadyGoesOn }
{}

/// Of what fits no sample is cut: what is added is counted, whatever the seed is.
pub fn nothing_is_cut()
    ensures { NothingIsCut }
{}

/// The most tones of a word, and the greatest frequency and time of one.
pub fn constants()
    ensures most_tones { MOST_TONES ≡ 6 }
    ensures most_hz { MOST_HZ ≡ 3999 }
    ensures most_ms { MOST_MS ≡ 60000 }
{}

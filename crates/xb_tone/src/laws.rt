//! What the definitions give: each law is the contract of a function that does nothing.
ghost use Rattle.xb_tone.specs.MuLawKeys.{MuLawKeysAreHeard};
ghost use Rattle.xb_tone.specs.NoisyKeys.{NoOptionsAreStandard, NoisyKeysAreHeard};
ghost use Rattle.xb_tone.specs.ShapeLaws.{ShapesAreSounded};
ghost use Rattle.xb_tone.specs.Laws.{AllAreHeard, EachSounds, KeyingsBegin};
ghost use Rattle.std.specs.Prelude.{◌≡◌};
ghost use Rattle.xb_tone.specs.declared.text.TheConstants.{MOST_TEXT_BYTES};

/// Keys with noise of up to 277 in each sample are heard, whatever the seed is, where their tones are as loud as ever.
#[tactic(auto, using(crate::proofs::NoisyKeys::noisy_keys_are_heard))]
pub fn noisy_keys_are_heard()
    ensures { NoisyKeysAreHeard }
{}

/// Keys that are written by mu-law, and nothing else of them changed, are heard: just these.
#[tactic(auto, using(crate::proofs::MuLawKeys::mu_law_keys_are_heard))]
pub fn mu_law_keys_are_heard()
    ensures { MuLawKeysAreHeard }
{}

/// Without an option of it the setting is the standard one.
#[tactic(auto, using(crate::proofs::Unset::no_options_are_standard))]
pub fn no_options_are_standard()
    ensures { NoOptionsAreStandard }
{}

/// **A key that is disturbed sounds as was asked for**: each frequency is the nearest whole Hz to the one that is detuned;
/// the tone that is late is silent for just its ms, while the other one sounds, and then begins; and in a hole nothing
/// sounds, while before it and after it the key sounds as if there were none.
#[tactic(auto, using(crate::proofs::ShapeLaws::shapes_are_sounded))]
pub fn shapes_are_sounded()
    ensures { ShapesAreSounded }
{}

/// KP begins at the time of its entry and the lead, as far as later entries leave it, whatever came before.
#[tactic(auto, using(crate::proofs::Begun::keyings_begin))]
pub fn keyings_begin()
    ensures { KeyingsBegin }
{}

/// From the time of an entry on just that entry sounds, up to the next one.
#[tactic(auto, using(crate::proofs::Begun::each_sounds))]
pub fn each_sounds()
    ensures { EachSounds }
{}

/// Where no line tells a cut, the keys of all entries are heard, by any cadence that sets its tones apart.
#[tactic(auto, using(crate::proofs::HeardEntries::all_are_heard))]
pub fn all_are_heard()
    ensures { AllAreHeard }
{}

/// How many bytes the text of entries has at most.
pub fn constants()
    ensures most_text_bytes { MOST_TEXT_BYTES ≡ 67108864 }
{}

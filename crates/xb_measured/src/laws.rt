//! What the definitions give: each law is the contract of a function that does nothing.
ghost use Rattle.xb_measured.specs.Constants.{AreConstants};
ghost use Rattle.xb_measured.specs.FigureLaws.{HolesAreGaps, TimesAreOfSounds};
ghost use Rattle.xb_measured.specs.Nearest.{TenthsAreNearest};
ghost use Rattle.xb_measured.specs.Worked.{LevelsAreAsWorked};
ghost use Rattle.xb_measured.specs.WorkedVerdicts.{GapsAreAsWorked, LengthsAreAsWorked, TonesAreAsWorked, VerdictsAreAsWorked};
ghost use Rattle.xb_measured.specs.KeyingConstants.{KeyingsAreBounded};
ghost use Rattle.xb_measured.specs.WorkedDoubts.{DoubtsAreAsWorked};
ghost use Rattle.xb_measured.specs.WorkedButtons.{DigitsAreTold, KeysAreNoDigits};
ghost use Rattle.std.specs.Prelude.{◌≡◌, ◌∷◌, []};
ghost use Rattle.xb_measured.specs.declared.button_block.TheConstants.{HIGH, LEAST_LEVEL, LOW, SHARE, SHARE_OF, TWIST};

/// The times and levels of System R1, each as it is.
pub fn constants()
    ensures { AreConstants }
{}

/// The levels of some amplitudes, as worked by hand.
pub fn levels_are_as_worked()
    ensures { LevelsAreAsWorked }
{}

/// The tenths of a dB of each level below 10^13, and so of all that the ear measures, are the nearest to its decibels.
pub fn tenths_are_nearest()
    ensures { TenthsAreNearest }
{}

/// The most digits of a keying, and what its rhythm may be off that is no doubt, as they are.
pub fn keyings_are_bounded()
    ensures { KeyingsAreBounded }
{}

/// What is doubtful of some keyings, as worked by hand.
pub fn doubts_are_as_worked()
    ensures { DoubtsAreAsWorked }
{}

/// In a block of each of the sixteen digits one sounds.
pub fn digits_are_told()
    ensures { DigitsAreTold }
{}

/// In a block of each of the fifteen pairs of MF keys none does.
pub fn keys_are_no_digits()
    ensures { KeysAreNoDigits }
{}

/// **The measured times of a key are those of its sound.** It sounds from one sample to another, and its windows are just
/// those with at most a quarter before it and at most a quarter after it. Its beginning is at most 2.5 ms too late, its end
/// at most 3.3 ms too soon, and a gap at most 4.9 ms too long.
#[tactic(auto, using(crate::proofs::FigureLaws::times_are_of_sounds))]
pub fn times_are_of_sounds()
    ensures { TimesAreOfSounds }
{}

/// A hole is as long as a gap of as many windows.
#[tactic(auto, using(crate::proofs::FigureLaws::holes_are_gaps))]
pub fn holes_are_gaps()
    ensures { HolesAreGaps }
{}

/// Which figures System R1 takes, and what is said of keys, as worked by hand.
pub fn verdicts_are_as_worked()
    ensures lengths { LengthsAreAsWorked }
    ensures gaps { GapsAreAsWorked }
    ensures tones { TonesAreAsWorked }
    ensures verdicts { VerdictsAreAsWorked }
{}

/// What a digit of a push-button telephone has: one of four low frequencies and one of four high ones, the least level of
/// a tone, the most twist, and its share of the power.
pub fn buttons_are_bounded()
    ensures low { LOW ≡ 697 ∷ 770 ∷ 852 ∷ 941 ∷ [] }
    ensures high { HIGH ≡ 1209 ∷ 1336 ∷ 1477 ∷ 1633 ∷ [] }
    ensures least_level { LEAST_LEVEL ≡ 250000 }
    ensures twist { TWIST ≡ 16 }
    ensures share { SHARE ≡ 3 }
    ensures share_of { SHARE_OF ≡ 4 }
{}

//! What the definitions give: each law is the contract of a function that does nothing.
ghost use Rattle.xb_chance.specs.Swings.{SwingsGoOn};
ghost use Rattle.xb_chance.specs.WorkedWords.{WordsAreKnown};

/// After m steps the numbers go on: n after that state is m + n after the seed.
#[tactic(auto, using(crate::proofs::Swings::swings_go_on))]
pub fn swings_go_on()
    ensures { SwingsGoOn }
{}

/// The first words of the seed 1234567, as other programs have them.
pub fn words_are_known()
    ensures { WordsAreKnown }
{}

//! What the definitions give: each law is the contract of a function that does nothing.
ghost use Rattle.xb_incoming.specs.Certain.{ToldIsCertain};
ghost use Rattle.xb_incoming.specs.Worked.{AreAsWorked};
ghost use Rattle.xb_incoming.specs.Joined.{KeyedIsRegistered};

/// What a register told after some keys is exactly what is certain by them.
pub fn told_is_certain()
    ensures { ToldIsCertain }
{}

/// Of the keys of keyings the outcomes are their numbers, in order, one each.
#[tactic(auto, using(crate::proofs::Joined::keyed_is_registered))]
pub fn keyed_is_registered()
    ensures { KeyedIsRegistered }
{}

/// Worked cases, reckoned by hand.
pub fn outcomes_are_as_worked()
    ensures { AreAsWorked }
{}

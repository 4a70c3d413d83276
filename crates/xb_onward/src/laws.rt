//! What a caller may forget of the keys that it has handed over: each law is the contract of a function that does
//! nothing.
ghost use Rattle.xb_onward.specs.Forgetting.{IsNewAfterSt, IsNewBeforeKp};

/// After an ST that told an outcome a register stands as at first: what it tells of later keys, and of their end, is
/// what it tells of them alone. And as it stands at first it passes over any key but a KP.
#[tactic(auto, using(crate::proofs::Forgetting::new_after_st, crate::proofs::Forgetting::new_before_kp))]
pub fn stands_as_at_first()
    ensures after_st { IsNewAfterSt }
    ensures before_kp { IsNewBeforeKp }
{}

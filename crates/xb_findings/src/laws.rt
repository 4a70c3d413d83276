//! What the definitions give: each law is the contract of a function that does nothing.
ghost use Rattle.xb_findings.specs.Constants.{AreConstants};

/// The most of a kind that are told and are counted, the kinds, and the least ms of a run that is no bounce, each as it
/// is.
pub fn constants()
    ensures { AreConstants }
{}

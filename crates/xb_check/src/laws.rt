//! What the definitions give: each law is the contract of a function that does nothing.
ghost use Rattle.xb_check.specs.Constants.{AreConstants};

/// The most bytes of a text line that are shown, as it is.
pub fn constants()
    ensures { AreConstants }
{}

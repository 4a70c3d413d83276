//! What the definitions give: each law is the contract of a function that does nothing.
ghost use Rattle.xb_command.specs.Constants.{AreConstants};

/// The statuses and the most bytes of a file, each as it is.
pub fn constants()
    ensures { AreConstants }
{}

//! What the definitions give: each law is the contract of a function that does nothing.
ghost use Rattle.std.specs.Prelude.{◌≡◌};
ghost use Rattle.xb_picture.specs.declared.attempt.TheConstants.{MOST_DIGITS};
ghost use Rattle.xb_picture.specs.declared.course.TheConstants.{SHOWN, TRAIN};
ghost use Rattle.xb_picture.specs.declared.figures.TheConstants.{TOLD};
ghost use Rattle.xb_picture.specs.declared.picture.TheConstants.{MOST_ATTEMPTS};

/// How many attempts of a line and digits of an attempt are drawn, how many ms of a run and of a digit's pulses, and the
/// least ms of a make whose time is told.
pub fn constants()
    ensures most_attempts { MOST_ATTEMPTS ≡ 20 }
    ensures most_digits { MOST_DIGITS ≡ 24 }
    ensures shown { SHOWN ≡ 1600 }
    ensures train { TRAIN ≡ 4400 }
    ensures told { TOLD ≡ 300 }
{}

//! What the definitions give: each law is the contract of a function that does nothing.
ghost use Rattle.xb_doubts.specs.Constants.{AreConstants};

/// The least attempts that are told as ringing, the ms under which a make is ringing's, the least breaks by
/// which times are judged that dial nothing, the least clear digits of a call, the least pulses of such a digit,
/// and the least ms of a pulse of a line that looks exchanged, each as it is.
pub fn constants()
    ensures { AreConstants }
{}

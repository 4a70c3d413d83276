//! The numbers by which a page knows what the module answers.
ghost use Rattle.std.specs.Prelude.{◌≡◌};
ghost use Rattle.mfweb.specs.declared.status.TheConstants.{NO_CODE, NO_EAR, NO_ROOM};

/// The statuses that the calls of other libraries do not have.
pub fn constants()
    ensures no_room { NO_ROOM ≡ 7 }
    ensures no_code { NO_CODE ≡ 27 }
    ensures no_ear { NO_EAR ≡ 28 }
{}

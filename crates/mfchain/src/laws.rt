//! What the statuses are, and the samples: each law is the contract of a function that does nothing.
ghost use Rattle.std.specs.Prelude.{◌≡◌, List, map};
ghost use Rattle.xb_model.specs.declared.mark.Mark.{Mark};
ghost use Rattle.xb_model.specs.declared.on.On.{On};
ghost use Rattle.xb_structs.specs.EntryLines.{mark_in};
ghost use Rattle.xb_structs.specs.Marks.{plain_mark};
ghost use Rattle.xb_sound.specs.declared.cadence.Cadence.{Cadence};
ghost use Rattle.xb_sound.specs.Sounds.{sound_of};
ghost use Rattle.mfchain.specs.declared.status.TheConstants.{NO_ROOM, WRONG_CADENCE, WRONG_CHARACTER};
ghost use Rattle.mfchain.specs.declared.status.TheConstants.{WRONG_MARKS};

/// The statuses that the calls of other libraries do not have.
pub fn constants()
    ensures room { NO_ROOM ≡ 7 }
    ensures marks { WRONG_MARKS ≡ 24 }
    ensures cadence { WRONG_CADENCE ≡ 25 }
    ensures character { WRONG_CHARACTER ≡ 26 }
{}

/// The sound of marks that a call gave, one after the other, is that of what was keyed: what the plain numbers of a
/// mark say is this mark.
pub fn plays_what_was_given()
    ensures { (cadence : Cadence) (given : List (On Mark)) →
        sound_of cadence (map mark_in (map plain_mark given))
        ≡ sound_of cadence (map (λ mark. mark.what) given) }
{}

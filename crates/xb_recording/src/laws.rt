//! What the definitions of `specs/` come to: each law is the contract of a function that does nothing.
ghost use Rattle.std.specs.Prelude.{List, ℕ};
ghost use Rattle.xb_recording.specs.declared.wanted.Wanted.{Wanted};
ghost use Rattle.xb_recording.specs.Constants.{AreConstants};
ghost use Rattle.xb_recording.specs.Written.{WrittenIsRead};
ghost use Rattle.xb_recording.specs.WrittenForms.{BeginningsAreTold, WrittenFormsAreTold};

/// The longest text line, and the mark before a text.
pub fn constants()
    ensures { AreConstants }
{}

/// Whatever wires do, written as a VCD, as rows of times and levels, or, where each rises and falls in turn, as edges of
/// gpiomon, a text says just that of them: nothing is lost, added or moved.
pub fn written_is_read()
    ensures { (wanted : Wanted) → WrittenIsRead wanted }
{}

/// The form of the first lines that some programs write.
pub fn beginnings_are_told()
    ensures { BeginningsAreTold }
{}

/// Whatever wires do, written as a VCD or as edges of gpiomon, the form is told by the beginning.
pub fn written_forms_are_told()
    ensures { (names : List (List ℕ)) → WrittenFormsAreTold names }
{}

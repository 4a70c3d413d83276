//! What the definitions of `specs/` come to: each law is the contract of a function that does nothing.
ghost use Rattle.xb_vcd.specs.MissingWires.{FirstMissingIsTold};
ghost use Rattle.xb_vcd.specs.WorkedVcd.{ChangesAreTaken, VcdsAreRead, WordsAreRead};
ghost use Rattle.xb_vcd.specs.WrittenVcd.{WrittenIsRead};

/// What some words of a VCD say.
pub fn words_are_read()
    ensures { WordsAreRead }
{}

/// What some words come to among the changes of a VCD of two wires.
pub fn changes_are_taken()
    ensures { ChangesAreTaken }
{}

/// What some texts say, and why others say nothing.
pub fn vcds_are_read()
    ensures { VcdsAreRead }
{}

/// Whatever wires do, written as a VCD it is read back as it is: each change at its tick, of its wire, in order. The
/// wires are at most 94, with names of their own, and no tick is below the one before.
pub fn written_is_read()
    ensures { WrittenIsRead }
{}

/// Of the wires that are asked for it is the first one, in their order, that is told to be missing where the header of a
/// VCD does not declare it, whatever follows.
pub fn the_first_missing_is_told()
    ensures { FirstMissingIsTold }
{}

//! What the pulse stage hears in loop rows, as contracts of functions that do nothing.
ghost use Rattle.xb_model.specs.declared.limits.Limits.{Limits};
ghost use Rattle.xb_pulse.specs.Laws.{HearsTheRecord, HearsTheRecordOfEach, HearsSoFar, HearsSoFarOfEach};
ghost use Rattle.xb_pulse.specs.Machine.{machine};
ghost use Rattle.xb_pulse.specs.Plain.{StatesComeBack};

/// What is sent for the rows of a line whose record is closed are the record's signals, however
/// its runs are cut into rows, and whatever rows of other lines stand between. Rows after the
/// close add nothing.
pub fn hears_the_record()
    ensures one_line { (limits : Limits) → HearsTheRecord limits (machine limits) }
    ensures all_lines { (limits : Limits) → HearsTheRecordOfEach limits (machine limits) }
{}

/// While a line's record is open, what was sent and a close are the signals of its rows so far: so
/// each signal is sent by the row in which its limit is reached.
pub fn hears_so_far()
    ensures one_line { (limits : Limits) → HearsSoFar limits (machine limits) }
    ensures all_lines { (limits : Limits) → HearsSoFarOfEach limits (machine limits) }
{}

/// Each state comes back from its plain numbers.
pub fn states_come_back()
    ensures { StatesComeBack }
{}

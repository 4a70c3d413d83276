//! What the register gives for the signals of a line: each law is the contract of a function that
//! does nothing.
ghost use Rattle.xb_model.specs.declared.plan.Plan.{Plan};
ghost use Rattle.xb_register.specs.Laws.{GivesOutcomes, EachSeizureGivesAtMostOne, GivesNoMoreThanSeizures, GivesNoneBeforeASeizure};
ghost use Rattle.xb_register.specs.Machine.{machine};
ghost use Rattle.xb_register.specs.Plain.{StatesComeBack};

/// The signals of a record give one outcome for each of its attempts, in order, on the line.
pub fn gives_outcomes()
    ensures { (plan : Plan) → GivesOutcomes plan (machine plan) }
{}

/// Whatever the signals are, at most one outcome comes of each seizure and what follows it up to
/// the next; so there are no more in all than seizures.
pub fn gives_at_most_one()
    ensures each { (plan : Plan) → EachSeizureGivesAtMostOne (machine plan) }
    ensures total { (plan : Plan) → GivesNoMoreThanSeizures (machine plan) }
{}

/// Whatever the signals are, those before the first seizure give no outcome, and change nothing of
/// what comes after.
pub fn gives_none_before_a_seizure()
    ensures { (plan : Plan) → GivesNoneBeforeASeizure (machine plan) }
{}

/// Each state comes back from its plain values.
pub fn states_come_back()
    ensures { StatesComeBack }
{}

//! What the definitions give: each law is the contract of a function that does nothing.
ghost use Rattle.xb_trunk.specs.Laws.{CallsSoundWhole, KeysAreHeard, NothingIsTakenBack, TimeIsKept};
ghost use Rattle.xb_trunk.specs.StartLaws.{EachIsSettledOnce, GivenUpWithoutWink, NoKeyWithoutWink};
ghost use Rattle.std.specs.Prelude.{◌≡◌, ◌^◌};
ghost use Rattle.xb_trunk.specs.declared.start_dial.TheConstants.{AFTER_WINK, LEAST_WINK, LONGEST_WAIT, MOST_MS, MOST_WINK};

/// Rows of t ms write 8 t samples.
#[tactic(auto, using(crate::proofs::Times::time_is_kept))]
pub fn time_is_kept()
    ensures { TimeIsKept }
{}

/// What rows wrote never depends on later rows.
pub fn nothing_is_taken_back()
    ensures { NothingIsTakenBack }
{}

/// What waits is heard next, whole, and where nothing waits a call sounds from the end of its row on.
#[tactic(auto, using(crate::proofs::Spaced::calls_sound_whole))]
pub fn calls_sound_whole()
    ensures { CallsSoundWhole }
{}

/// However rows are cut, a receiver hears exactly the keys of all calls, in order.
#[tactic(auto, using(crate::proofs::HeardCalls::keys_are_heard))]
pub fn keys_are_heard()
    ensures { KeysAreHeard }
{}

/// What is keyed was completed in an earlier row, and has its wink among the rows of the lead so far.
#[tactic(auto, using(crate::proofs::Promises::no_key_without_wink))]
pub fn no_key_without_wink()
    ensures { NoKeyWithoutWink }
{}

/// What is given up waited long enough, and no row since then ended its wink.
#[tactic(auto, using(crate::proofs::Promises::given_up_without_wink))]
pub fn given_up_without_wink()
    ensures { GivenUpWithoutWink }
{}

/// Each keying is keyed, given up or waits: in order, and once.
#[tactic(auto, using(crate::proofs::Settlements::each_is_settled_once))]
pub fn each_is_settled_once()
    ensures { EachIsSettledOnce }
{}

/// A wink lasts 100 to 350 ms, a number is keyed 70 ms after it, and given up after 5,000 ms. Rows may last 2^100 ms.
pub fn constants()
    ensures least_wink { LEAST_WINK ≡ 100 }
    ensures most_wink { MOST_WINK ≡ 350 }
    ensures after_wink { AFTER_WINK ≡ 70 }
    ensures longest_wait { LONGEST_WAIT ≡ 5000 }
    ensures most_ms { MOST_MS ≡ 2 ^ 100 }
{}

// Samples that go to and fro.
ghost use Rattle.std.specs.Prelude.{◌≡◌};
ghost use Rattle.xb_samples.specs.Turns.{any_from, are_too_many, count_after, new_turns, turns_after, turns_state};

/// So many samples in a row that go back are none of a contact, whose levels are held for longer: a bell that rings for
/// 2 s at 60 Hz goes back 240 times where it is sampled at just twice that.
pub(crate) const MOST_TURNS: u8 = 250;

/// The last two samples of the wires that are asked for, and how many in a row went back: each is another one than the
/// one before, and the same as the one before that.
#[derive(Clone, Copy, Debug, PartialEq, Eq)]
pub(crate) struct Turns {
    // The wires that are asked for.
    mask: u16,
    before: Option<u16>,
    last: Option<u16>,
    count: u8,
}

// All bits of these.
fn any_of(masks: &[u16]) -> u16
    ensures { result ≡ any_from 0 masks.now }
{
    let mut all = 0;
    for mask in masks {
        all |= *mask;
    }
    all
}

// How many go back after one more.
fn count_after(count: u8, goes_back: bool) -> u8
    ensures { result ≡ count_after count goes_back }
{
    if !goes_back {
        0
    } else if count < MOST_TURNS {
        count + 1
    } else {
        MOST_TURNS
    }
}

impl Turns {
    /// Nothing has come of wires with these bits.
    pub(crate) fn new(masks: &[u16]) -> Turns
        ensures { turns_state result ≡ new_turns masks.now }
    {
        Turns {
            mask: any_of(masks),
            before: None,
            last: None,
            count: 0,
        }
    }

    /// What is known after a sample.
    pub(crate) fn after(self, sample: u16) -> Turns
        ensures { turns_state result ≡ turns_after (turns_state self) sample }
    {
        let own = sample & self.mask;
        let goes_back = self.before == Some(own) && self.last != Some(own);
        Turns {
            mask: self.mask,
            before: self.last,
            last: Some(own),
            count: count_after(self.count, goes_back),
        }
    }

    /// Whether too many have gone back.
    pub(crate) fn are_too_many(self) -> bool
        ensures { result ≡ are_too_many (turns_state self) }
    {
        self.count >= MOST_TURNS
    }
}

// Neighbouring holds of one level joined as they come.
ghost use Rattle.std.specs.Prelude.{◌≡◌, ◌+◌, ◌<◌, ◌≤◌, ◌^◌};
ghost use Rattle.xb_contact.specs.Joints.{full, joined_by, left_of};

use crate::hold::Hold;

/// What joining a hold gives, and the hold that may still grow longer.
#[derive(Clone, Copy, Debug, PartialEq, Eq)]
pub struct Joint {
    /// What is given.
    pub given: Option<Hold>,
    /// What is kept; of 0 ticks where nothing is.
    pub last: Hold,
}

// A hold that has grown longer is given once it has `most` ticks.
fn full(most: u64, sum: Hold) -> Joint
    ensures value { result ≡ full most sum }
    ensures within { result.last.ticks ≤ sum.ticks }
{
    if sum.ticks >= most {
        Joint {
            given: Some(sum),
            last: Hold {
                level: sum.level,
                ticks: 0,
            },
        }
    } else {
        Joint {
            given: None,
            last: sum,
        }
    }
}

// What is given of a hold that another level ends.
pub(crate) fn left_of(last: Hold) -> Option<Hold>
    ensures { result ≡ left_of last }
{
    if last.ticks == 0 { None } else { Some(last) }
}

/// Joins a hold to the one before. What was kept is given where the level changes, and where it has `most`
/// ticks or more, so that a long run is given in parts.
pub fn joined_by(most: u64, last: Hold, hold: Hold) -> Joint
    requires { last.ticks + hold.ticks < 2 ^ 64 }
    ensures value { result ≡ joined_by most last hold }
    ensures within { result.last.ticks ≤ last.ticks + hold.ticks }
{
    if last.level == hold.level {
        full(
            most,
            Hold {
                level: last.level,
                ticks: last.ticks + hold.ticks,
            },
        )
    } else {
        Joint {
            given: left_of(last),
            last: hold,
        }
    }
}

// The words of splitmix64.
ghost use Rattle.std.specs.Prelude.{◌≡◌, ◌<◌};
ghost use Rattle.xb_chance.specs.Words.{folded, state_after, word_of};

// How far the state goes on at each step.
const STEP: u64 = 0x9e37_79b9_7f4a_7c15;

/// The state after so many steps. The first state is the seed.
pub fn state_after(state: u64, steps: u32) -> u64
    ensures { result ≡ state_after state steps }
{
    state.wrapping_add(STEP.wrapping_mul(u64::from(steps)))
}

// A word with its high bits folded down by so many places, times a factor.
fn folded(word: u64, places: u32, factor: u64) -> u64
    requires { places < 64 }
    ensures { result ≡ folded word places factor }
{
    (word ^ (word >> places)).wrapping_mul(factor)
}

/// The word that the generator gives in a state.
pub fn word_of(state: u64) -> u64
    ensures { result ≡ word_of state }
{
    let once = folded(state, 30, 0xbf58_476d_1ce4_e5b9);
    let twice = folded(once, 27, 0x94d0_49bb_1331_11eb);
    twice ^ (twice >> 31)
}

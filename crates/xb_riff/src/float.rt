// Samples in floats of 32 bits (IEEE 754), by whole numbers alone.
ghost use Rattle.std.specs.Prelude.{◌≡◌, ◌<◌, ◌≤◌, ◌^◌, ◌+◌, ◌*◌, ◌/◌};
ghost use Rattle.xb_riff.specs.Floats.{float_exponent, float_magnitude, float_sample, float_significand};

// The bits of a sign, and of infinity.
const SIGN: u32 = 0x8000_0000;

const INFINITE: u32 = 0x7f80_0000;

// One, as the bits before the point stand in a significand.
const ONE: u32 = 0x0080_0000;

// From this exponent on a float is 1/65,536 or more, which is half a step; from the next one on it is 1 or more.
const HALF_A_STEP: u32 = 111;

const WHOLE: u32 = 127;

// The bits of an exponent.
fn exponent_of(bits: u32) -> u32
    ensures value { result ≡ float_exponent bits }
    ensures bound { result < 256 }
{
    bits / ONE % 256
}

// The bits of a fraction after a one.
fn significand_of(bits: u32) -> u32
    ensures value { result ≡ float_significand bits }
    ensures bound { result < 2 ^ 24 }
{
    ONE + bits % ONE
}

// The nearest number of steps to a significand, which is so many halves of a step to the right.
fn rounded(significand: u32, half: u32) -> u32
    requires significand { significand < 2 ^ 24 }
    requires least { 256 ≤ half }
    requires most { half ≤ 2 ^ 23 }
    ensures value { result ≡ (significand + half) / (2 * half) }
    ensures bound { result ≤ 32768 }
{
    (significand + half) / (2 * half)
}

// How large a float is, in steps of 1/32,768; half a step goes up, and no more than 32,768 are heard.
fn float_magnitude(bits: u32) -> u32
    ensures value { result ≡ float_magnitude bits }
    ensures bound { result ≤ 32768 }
{
    let exponent = exponent_of(bits);
    if exponent < HALF_A_STEP {
        return 0;
    }
    if exponent >= WHOLE {
        return 32_768;
    }
    rounded(significand_of(bits), 2u32.pow(134 - exponent))
}

/// The sample that the bits of a float write.
pub(crate) fn float_sample(bits: u32) -> i16
    ensures { result ≡ float_sample bits }
{
    if bits % SIGN > INFINITE {
        return 0;
    }
    let magnitude = float_magnitude(bits);
    if bits < SIGN {
        magnitude.min(32_767) as i16
    } else {
        (-(magnitude as i32)) as i16
    }
}

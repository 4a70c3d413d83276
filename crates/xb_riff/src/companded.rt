// Samples in eight bits whose steps grow with them (G.711).
ghost use Rattle.std.specs.Prelude.{◌≡◌, ◌<◌, ◌≤◌};
ghost use Rattle.xb_riff.specs.Codings.{a_law_magnitude, a_law_sample, magnitude, mu_law_sample};
ghost use Rattle.xb_riff.specs.MuLawBytes.{IsCodedAs, mu_law_byte, nearest_code};

// How far from silence a code of mu-law is.
fn magnitude(code: u8) -> u16
    ensures value { result ≡ magnitude code }
    ensures bound { result ≤ 32124 }
{
    let steps = u32::from(code % 16) * 8 + 132;
    let doublings = 2u32.pow(u32::from(code % 128 / 16));
    (steps * doublings - 132) as u16
}

/// A sample of mu-law.
pub(crate) fn mu_law(byte: u8) -> i16
    ensures { result ≡ mu_law_sample byte }
{
    let magnitude = magnitude(255 - byte) as i16;
    if byte < 128 { -magnitude } else { magnitude }
}

// How far from zero a code of A-law is.
fn a_law_magnitude(code: u8) -> u16
    ensures value { result ≡ a_law_magnitude code }
    ensures bound { result ≤ 32256 }
{
    let steps = u32::from(code % 16) * 16 + 8;
    let segment = u32::from(code % 128 / 16);
    if segment == 0 {
        return steps as u16;
    }
    let doublings = 2u32.pow(segment - 1);
    ((steps + 256) * doublings) as u16
}

/// A sample of A-law.
pub(crate) fn a_law(byte: u8) -> i16
    ensures { result ≡ a_law_sample byte }
{
    let magnitude = a_law_magnitude(byte ^ 0x55) as i16;
    if byte < 128 { -magnitude } else { magnitude }
}

// The code of seven bits of mu-law whose magnitude is nearest to a size, and the greater one of two that are as near.
// Raised by 132, the magnitudes of each doubling begin at 132 times its power of two, and halfway down to the greatest
// one of the doubling before lies 129 times that power.
fn nearest_code(size: u16) -> u8
    requires { size ≤ 32768 }
    ensures value { result ≡ nearest_code size }
    ensures bound { result < 128 }
{
    let raised = u32::from(size) + 132;
    let doublings = (raised / 129).ilog2();
    let steps = ((raised / 8) >> doublings) - 16;
    (doublings * 16 + steps.min(15)) as u8
}

// The byte of the code that is nearest to a sample, with its sign.
fn signed_code(sample: i16) -> u8
    ensures { result ≡ mu_law_byte sample }
{
    let code = nearest_code(sample.unsigned_abs());
    if sample < 0 { 127 - code } else { 255 - code }
}

/// The byte of mu-law that stands for the sample nearest to this one (ITU-T G.711). Halfway between two it is that of
/// the one farther from zero; zero itself is 255, and not 127.
pub fn mu_law_byte(sample: i16) -> u8
    ensures value { result ≡ mu_law_byte sample }
    ensures nearest { IsCodedAs sample result }
{
    signed_code(sample)
}

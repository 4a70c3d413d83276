// The timescale of a VCD: a number, and its unit.
ghost use Rattle.std.specs.Prelude.{◌≡◌, ◌≤◌, IfSome};
ghost use Rattle.xb_vcd.specs.VcdTexts.{scale_of, unit_of};

use xb_contact::Scale;

// The unit of a timescale: how many ms are how many units.
fn unit_of(word: &[u8]) -> Option<Scale>
    ensures value { result ≡ unit_of word.now }
    ensures few { IfSome result (λ scale. scale.ms ≤ 1000) }
{
    let (ms, ticks) = match word {
        b"s" => (1_000, 1),
        b"ms" => (1, 1),
        b"us" => (1, 1_000),
        b"ns" => (1, 1_000_000),
        b"ps" => (1, 1_000_000_000),
        b"fs" => (1, 1_000_000_000_000),
        _ => return None,
    };
    Some(Scale { ms, ticks })
}

/// The scale of so many units, which are 1, 10 or 100.
pub(crate) fn scale_of(number: u64, word: &[u8]) -> Option<Scale>
    ensures { result ≡ scale_of number word.now }
{
    let Scale { ms, ticks } = unit_of(word)?;
    match number {
        1 => Some(Scale { ms, ticks }),
        10 => Some(Scale { ms: ms * 10, ticks }),
        100 => Some(Scale {
            ms: ms * 100,
            ticks,
        }),
        _ => None,
    }
}

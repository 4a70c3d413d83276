// The head of a WAV file that is a recording.
ghost use Rattle.std.specs.Prelude.{◌≡◌, ◌≤◌, IfErr, IfOk, IfSome, length};
ghost use Rattle.xb_riff.specs.Heads.{TakesHead};
ghost use Rattle.xb_samples.specs.Wavs.{BeginsNothing, EndsBefore};

use xb_contact::Refusal;
use xb_riff::{HeadFault, WavFormat, WavHead};

// Whatever its fault, a file that is refused is no recording.
fn refusal_of(_fault: HeadFault) -> Refusal
    ensures { result ≡ Refusal.Wav }
{
    Refusal::Wav
}

/// Takes bytes of a WAV file, as `WavHead::take` does. After an `Err` the head stands before the byte that is refused.
pub fn take_head(head: &mut WavHead, bytes: &[u8]) -> Result<Option<(WavFormat, usize)>, Refusal>
    ensures taken { IfOk result (λ found. TakesHead head.old bytes.now found head.new) }
    ensures within { IfOk result (λ found. IfSome found (λ samples. samples.1 ≤ length bytes.now)) }
    ensures refused { IfErr result (λ _. BeginsNothing head.old bytes.now) }
    ensures only { IfErr result (λ e. e ≡ Refusal.Wav) }
{
    match head.take(bytes) {
        Ok(found) => Ok(found),
        Err(fault) => Err(refusal_of(fault)),
    }
}

/// Why a WAV file that ends before its samples is no recording.
pub fn end_head(head: &WavHead) -> Refusal
    ensures ended { EndsBefore head.now }
    ensures only { result ≡ Refusal.Wav }
{
    refusal_of(head.fault_at_end())
}

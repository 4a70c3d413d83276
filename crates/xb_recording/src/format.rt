// The forms of recordings.
ghost use Rattle.std.specs.Prelude.{◌≡◌};
ghost use Rattle.xb_recording.specs.Formats.{format_of};
ghost use Rattle.xb_recording.specs.Says.{plain_line};

/// The mark that some programs write before a text.
pub(crate) const BYTE_ORDER_MARK: &[u8] = b"\xef\xbb\xbf";

/// The form of a recording.
#[derive(Clone, Copy, Debug, PartialEq, Eq)]
pub enum Format {
    /// A value change dump.
    Vcd,
    /// The CSV of sigrok.
    Sigrok,
    /// The CSV of Saleae, and that of DSView and of WaveForms.
    Saleae,
    /// `SECONDS,LEVEL`.
    Edges,
    /// What gpiomon writes.
    Gpiomon,
    /// A byte for each sample; the wires are its bits, 0 to 7.
    Bits,
    /// Two bytes for each sample, the lower one first; the wires are its bits, 0 to 15.
    WideBits,
    /// Two bytes for each sample, the lower one first.
    Sixteen,
    /// A WAV file of such samples.
    Wav,
}

/// The form of this name.
pub fn format_of(name: &str) -> Option<Format>
    ensures { result ≡ format_of name.now }
{
    match name {
        "vcd" => Some(Format::Vcd),
        "sigrok" => Some(Format::Sigrok),
        "saleae" => Some(Format::Saleae),
        "edges" => Some(Format::Edges),
        "gpiomon" => Some(Format::Gpiomon),
        "bits" => Some(Format::Bits),
        "bits16" => Some(Format::WideBits),
        "s16" => Some(Format::Sixteen),
        "wav" => Some(Format::Wav),
        _ => None,
    }
}

/// A line without the mark that the first one may begin with.
pub fn without_mark(line: &[u8], is_first: bool) -> &[u8]
    ensures { result.now ≡ plain_line is_first line.now }
{
    if is_first && line.starts_with(BYTE_ORDER_MARK) {
        return &line[BYTE_ORDER_MARK.len()..];
    }
    line
}

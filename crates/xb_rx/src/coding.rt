// How a sound is written in bytes.
ghost use Rattle.std.specs.Prelude.{◌≡◌, ◌≤◌, drop, length};
ghost use Rattle.xb_riff.specs.Codings.{sample_at};
ghost use Rattle.xb_rx.specs.Samples.{IsForm, channel_bytes, channel_of, frame_bytes, group_bytes};

use xb_riff::Coding;

/// The most channels.
pub const MOST_CHANNELS: usize = 8;

/// The most frames that make one sample of 8,000 a second: of 192,000 a second.
pub const MOST_FRAMES: usize = 24;

/// The most bytes that write one sample of 8,000 a second.
pub(crate) const MOST_GROUP_BYTES: usize = 768;

/// How a sound is written.
#[derive(Clone, Copy, Debug, PartialEq, Eq)]
pub struct SampleForm {
    /// How each sample is.
    pub coding: Coding,
    /// How many channels there are, 1 to 8.
    pub channels: usize,
    /// Which of them is heard, counted from 0.
    pub channel: usize,
    /// How many samples of a channel there are to one of 8,000 a second: a divisor of 24.
    pub frames: usize,
}

impl SampleForm {
    // How many bytes a sample of each channel has.
    fn frame_bytes(self) -> usize
        requires { IsForm self }
        ensures value { result ≡ frame_bytes self }
        ensures some { 1 ≤ result }
        ensures bound { result ≤ 32 }
    {
        self.coding.width() * self.channels
    }

    // How many bytes of a frame stand before the channel that is heard.
    fn channel_bytes(self) -> usize
        requires { IsForm self }
        ensures value { result ≡ channel_bytes self }
        ensures bound { result ≤ 28 }
    {
        self.coding.width() * self.channel
    }

    /// How many bytes write one sample of 8,000 a second.
    pub(crate) fn group_bytes(self) -> usize
        requires { IsForm self }
        ensures value { result ≡ group_bytes self }
        ensures some { 1 ≤ result }
        ensures bound { result ≤ 768 }
    {
        self.frame_bytes() * self.frames
    }

    /// The first sample that bytes write in the channel that is heard.
    pub(crate) fn first_sample(self, group: &[u8]) -> i16
        requires form { IsForm self }
        requires group { length group.now ≡ group_bytes self }
        ensures { result ≡ sample_at self.coding (drop (channel_bytes self) group.now) }
    {
        self.coding.sample_of(&group[self.channel_bytes()..])
    }

    /// Puts down the samples that a group of bytes writes in the channel that is heard.
    pub(crate) fn put_samples(self, group: &[u8], samples: &mut [i16])
        requires form { IsForm self }
        requires group { length group.now ≡ group_bytes self }
        requires samples { length samples.old ≡ self.frames }
        ensures { samples.new ≡ channel_of self self.frames group.now }
    {
        let frame = self.frame_bytes();
        let before = self.channel_bytes();
        for (n, sample) in samples.iter_mut().enumerate() {
            *sample = self.coding.sample_of(&group[n * frame + before..]);
        }
    }
}

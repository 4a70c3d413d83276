// A sound that is heard, and what is told of one in which no key is heard, or no KP.
ghost use Rattle.std.specs.Prelude.{◌≡◌, ◌∷◌, ◌++◌, [], false, List, ℤ};
ghost use Rattle.xb_measured.specs.ButtonBlocks.{HasTaken};
ghost use Rattle.xb_rx.specs.Listeners.{has_kp_with, is_keyed_with};

use crate::page::PageFault;
use std::alloc::{AllocError, Global};
use std::io::Write;
use xb_measured::{Buttons, Heard, Meter, NamedKey, Receiver, buttons_line};
use xb_text::write_whole;

/// What was heard of a sound so far, how loud it was, and whether digits of a push-button telephone sounded in it.
#[derive(Drop)]
pub(crate) struct Listener {
    pub(crate) receiver: Receiver,
    pub(crate) meter: Meter,
    // which takes samples as long as no KP was heard
    pub(crate) buttons: Buttons,
    // whether a key was heard
    pub(crate) is_keyed: bool,
    // whether a KP was heard
    pub(crate) has_kp: bool,
}

// Whether a key was heard before, or this one.
fn is_keyed_with(before: bool, key: Option<Heard>) -> bool
    ensures { result ≡ is_keyed_with before key }
{
    before || key.is_some()
}

// Whether a KP was heard before, or this is one.
fn has_kp_with(before: bool, key: Option<Heard>) -> bool
    ensures { result ≡ has_kp_with before key }
{
    match key {
        Some(key) => before || NamedKey::of(key).is_kp(),
        None => before,
    }
}

// Takes a sample, as long as no KP was heard.
fn press(buttons: &mut Buttons, has_kp: bool, sample: i16)
    ensures { has_kp ≡ false → (samples : List ℤ) → HasTaken buttons.old samples
        → HasTaken buttons.new (samples ++ sample ∷ []) }
{
    if !has_kp {
        buttons.take(sample);
    }
}

impl Listener {
    ghost use Rattle.std.specs.Prelude.{◌≡◌, ◌<◌, ◌+◌, ◌^◌, [], ◌∷◌, ◌++◌, IfOk, List, ℤ, string_bytes};
    ghost use Rattle.xb_measured.specs.declared.heard.Heard.{Heard as HeardKey};
    ghost use Rattle.xb_measured.specs.Receivers.{keys_of_sound, listed};
    ghost use Rattle.xb_rx.specs.Listeners.{HasListened, buttons_text, loudness_text, quiet_text};
    ghost use Rattle.xb_rx.specs.Pages.{Ends};

    /// Before the first sample.
    pub(crate) fn new() -> Listener
        ensures heard { HasListened result [] [] }
        ensures count { result.meter.samples ≡ 0 }
    {
        Listener {
            receiver: Receiver::new(),
            meter: Meter::new(),
            buttons: Buttons::new(),
            is_keyed: false,
            has_kp: false,
        }
    }

    /// Takes a sample, and gives the key that it ends.
    pub(crate) fn take(&mut self, sample: i16) -> Option<Heard>
        requires { self.old.meter.samples < 2 ^ 63 }
        ensures heard { (samples : List ℤ) (keys : List HeardKey) → HasListened self.old samples keys
            → HasListened self.new (samples ++ sample ∷ []) (keys ++ listed result) }
        ensures count { self.new.meter.samples ≡ self.old.meter.samples + 1 }
    {
        self.meter.take(sample);
        press(&mut self.buttons, self.has_kp, sample);
        let key = self.receiver.take(sample);
        self.is_keyed = is_keyed_with(self.is_keyed, key);
        self.has_kp = has_kp_with(self.has_kp, key);
        key
    }

    /// The key that sounds where the samples end.
    pub(crate) fn finish(&self) -> Option<Heard>
        ensures { (samples : List ℤ) (keys : List HeardKey) → HasListened self.now samples keys
            → keys ++ listed result ≡ keys_of_sound samples }
    {
        self.receiver.finish()
    }

    // How loud the sound is, if no key was heard, and this one neither.
    fn loudness_text(&self, alloc: Global, last: Option<Heard>) -> Result<String, AllocError>
        ensures { IfOk result (λ text. (samples : List ℤ) (keys : List HeardKey)
            → HasListened self.now samples keys → string_bytes text ≡ loudness_text samples (keys ++ listed last)) }
    {
        let is_keyed = is_keyed_with(self.is_keyed, last);
        if is_keyed {
            Ok(String::new(alloc))
        } else {
            self.meter.quiet_line(alloc)
        }
    }

    // For how long digits of a push-button telephone sound, if no KP was heard, and this is none.
    fn buttons_text(&self, alloc: Global, last: Option<Heard>) -> Result<String, AllocError>
        ensures { IfOk result (λ text. (samples : List ℤ) (keys : List HeardKey)
            → HasListened self.now samples keys → string_bytes text ≡ buttons_text samples (keys ++ listed last)) }
    {
        let has_kp = has_kp_with(self.has_kp, last);
        if has_kp {
            Ok(String::new(alloc))
        } else {
            buttons_line(alloc, self.buttons.blocks())
        }
    }

    // Both, where this key sounds at the end.
    fn quiet_text(&self, alloc: Global, last: Option<Heard>) -> Result<String, AllocError>
        ensures { IfOk result (λ text. (samples : List ℤ) (keys : List HeardKey)
            → HasListened self.now samples keys → string_bytes text ≡ quiet_text samples (keys ++ listed last)) }
    {
        let mut text = self.loudness_text(alloc, last)?;
        let digits = self.buttons_text(alloc, last)?;
        text.push_str(&digits)?;
        Ok(text)
    }

    /// Tells how loud a sound is in which no key was heard, where this one sounds at its end, and for how long digits
    /// of a push-button telephone sound in one in which no KP was. On an `Err` the beginning of that was written.
    pub(crate) fn tell<E: Write>(
        &self,
        alloc: Global,
        last: Option<Heard>,
        err: &mut E,
    ) -> Result<(), PageFault>
        ensures { (samples : List ℤ) (keys : List HeardKey) → HasListened self.now samples keys
            → Ends (quiet_text samples (keys ++ listed last)) result (E.contents err.old) (E.contents err.new) }
    {
        let text = self.quiet_text(alloc, last)?;
        if write_whole(err, text.as_bytes()).is_err() {
            return Err(PageFault::Tell);
        }
        Ok(())
    }
}

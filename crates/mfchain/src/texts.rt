// Texts as C has them.
ghost use Rattle.std.specs.Prelude.{◌≡◌, ◌≤◌, ◌+◌, length, true, false};
ghost use Rattle.mfchain.specs.Texts.{HasText};

/// Writes a text, and a zero after it, to the front of the room, and returns whether there is room for both. Where
/// there is not, the room is as it was.
pub(crate) fn put_ended(text: &[u8], room: &mut [u8]) -> bool
    ensures written { result ≡ true → HasText text.now room.new }
    ensures refused { result ≡ false → length room.old ≤ length text.now }
    ensures kept { result ≡ false → room.new ≡ room.old }
    ensures enough { length text.now + 1 ≤ length room.old → result ≡ true }
{
    if text.len() >= room.len() {
        return false;
    }
    room[..text.len()].copy_from_slice(text);
    room[text.len()] = 0;
    true
}

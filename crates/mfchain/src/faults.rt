// Why a table is refused, as text for C.
use std::alloc::{AllocError, Global};
use xb_routes::RouteFault;

// The text of a fault.
fn text_of(alloc: Global, fault: RouteFault) -> Result<String, AllocError> {
    format!(in alloc; "{fault}")
}

/// Writes a text, cut to the room, and zeros after it: one at least, where there is room at all.
pub(crate) fn put_text(text: &[u8], room: &mut [u8]) {
    let most = room.len().saturating_sub(1);
    for i in 0..room.len() {
        room[i] = match text.get(i) {
            Some(byte) if i < most => *byte,
            _ => 0,
        };
    }
}

/// Writes the text of a fault in the same way; none where memory ran out.
pub(crate) fn put_fault(alloc: Global, fault: RouteFault, room: &mut [u8]) {
    if let Ok(text) = text_of(alloc, fault) {
        put_text(text.as_bytes(), room);
    }
}

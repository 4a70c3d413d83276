// A writer that takes no memory.
use std::io;
use std::io::{Error, ErrorKind, Write};

// The most bytes that it keeps.
const ROOM: usize = 256;

/// What was written, up to 256 bytes.
#[derive(Drop)]
pub struct Held {
    bytes: [u8; ROOM],
    count: usize,
}

impl Held {
    /// Nothing.
    pub fn new() -> Held {
        Held {
            bytes: [0; ROOM],
            count: 0,
        }
    }

    /// What was written.
    pub fn text(&self) -> &[u8] {
        self.bytes.get(..self.count).unwrap_or(&[])
    }
}

impl Write for Held {
    fn write(&mut self, buf: &[u8]) -> io::Result<usize> {
        let end = self.count.saturating_add(buf.len());
        match self.bytes.get_mut(self.count..end) {
            Some(room) => {
                room.copy_from_slice(buf);
                self.count = end;
                Ok(buf.len())
            }
            None => Err(Error::from(ErrorKind::Other)),
        }
    }

    fn flush(&mut self) -> io::Result<()> {
        Ok(())
    }
}

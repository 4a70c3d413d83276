// Streams that fail, and streams that give or take little at a time.
use std::alloc::Global;
use std::io;
use std::io::{Error, ErrorKind, Read, Write};

/// A reader that may fail once, and that then goes on.
#[derive(Drop)]
pub struct Halting<'a> {
    /// What it is still to give.
    pub rest: &'a [u8],
    /// The most bytes that it gives at a time.
    pub step: usize,
    /// After how many bytes more it fails, and how.
    pub fault: Option<(usize, ErrorKind)>,
    /// Whether it has failed.
    pub has_failed: bool,
    /// How often it was read after it had failed.
    pub read_again: usize,
}

impl<'a> Halting<'a> {
    /// A reader that gives these bytes, so many at a time at most.
    pub fn new(bytes: &'a [u8], step: usize) -> Halting<'a> {
        Halting {
            rest: bytes,
            step,
            fault: None,
            has_failed: false,
            read_again: 0,
        }
    }

    /// The same reader, which fails so after so many bytes.
    pub fn failing(bytes: &'a [u8], step: usize, after: usize, kind: ErrorKind) -> Halting<'a> {
        Halting {
            rest: bytes,
            step,
            fault: Some((after, kind)),
            has_failed: false,
            read_again: 0,
        }
    }
}

impl<'a> Read for Halting<'a> {
    fn read(&mut self, buf: &mut [u8]) -> io::Result<usize> {
        let mut n = self.rest.len().min(self.step).min(buf.len());
        if self.has_failed {
            self.read_again = self.read_again.saturating_add(1);
        }
        if let Some((before, kind)) = self.fault {
            if before == 0 {
                self.fault = None;
                self.has_failed = true;
                return Err(Error::from(kind));
            }
            n = n.min(before);
            self.fault = Some((before - n, kind));
        }
        let (given, rest) = self.rest.split_at(n);
        buf[..n].copy_from_slice(given);
        self.rest = rest;
        Ok(n)
    }
}

/// A writer that takes so many bytes, and then fails, or takes none.
#[derive(Drop)]
pub struct Short {
    /// What it has taken.
    pub taken: Vec<u8>,
    /// How many bytes more it takes.
    pub room: usize,
    /// The most bytes that it takes at a time.
    pub step: usize,
    /// How it fails once it has no room; without a fault it takes no byte.
    pub fault: Option<ErrorKind>,
    /// How a flush fails.
    pub flush: Option<ErrorKind>,
    /// How many calls failed or took no byte.
    pub failed: usize,
}

impl Short {
    /// A writer with so much room, which then fails so. Its flushes do not fail.
    pub fn new(alloc: Global, room: usize, fault: Option<ErrorKind>) -> Short {
        Short {
            taken: Vec::new(alloc),
            room,
            step: room,
            fault,
            flush: None,
            failed: 0,
        }
    }
}

impl Write for Short {
    fn write(&mut self, buf: &[u8]) -> io::Result<usize> {
        let n = buf.len().min(self.room).min(self.step);
        if n == 0 {
            self.failed = self.failed.saturating_add(1);
            return match self.fault {
                Some(kind) => Err(Error::from(kind)),
                None => Ok(0),
            };
        }
        self.taken.extend_from_slice(&buf[..n])?;
        self.room -= n;
        Ok(n)
    }

    fn flush(&mut self) -> io::Result<()> {
        match self.flush {
            Some(kind) => {
                self.failed = self.failed.saturating_add(1);
                Err(Error::from(kind))
            }
            None => Ok(()),
        }
    }
}

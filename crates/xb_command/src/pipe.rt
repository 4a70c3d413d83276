// A reader of the output that goes away, as `head` does once it has its lines.
ghost use Rattle.std.specs.Prelude.{◌≡◌, ◌⊎◌};

use std::cell::Cell;
use std::io;
use std::io::{Error, ErrorKind, Write};

/// The status where the reader of the output went away: what a shell says of a program that SIGPIPE ended.
pub const READER_GONE: u8 = 141;

/// What the streams of a process and its status share: whether the reader of its output went away, which
/// is known once a write of the output failed with `BrokenPipe`. At first it did not.
///
/// What contracts say of the streams holds whether it did or not, since no contract can say what the cell
/// holds.
#[derive(Default, Drop)]
pub struct Pipe {
    is_broken: Cell<bool>,
}

impl Pipe {
    /// The output, whose failures are noted here.
    pub fn output<W: Write>(&self, inner: W) -> Output<'_, W>
        ensures { result.inner ≡ inner }
    {
        Output { inner, pipe: self }
    }

    /// The stream of errors, which takes nothing more once the reader of the output went away.
    pub fn errors<E: Write>(&self, inner: E) -> Errors<'_, E>
        ensures { result.inner ≡ inner }
    {
        Errors { inner, pipe: self }
    }

    /// The status of the process: `READER_GONE` where the reader of the output went away, else the one that
    /// is given.
    pub fn status(&self, status: u8) -> u8
        ensures { (result ≡ status) ⊎ (result ≡ READER_GONE) }
    {
        if self.is_broken.get() {
            READER_GONE
        } else {
            status
        }
    }

    // Notes a failure of the output.
    fn note(&self, fault: &Error) {
        if fault.kind() == ErrorKind::BrokenPipe {
            self.is_broken.set(true);
        }
    }
}

/// The output of a process. Each call goes to the stream itself, and holds what that one holds.
#[derive(Drop)]
pub struct Output<'a, W> {
    inner: W,
    pipe: &'a Pipe,
}

/// The stream of errors of a process. Each write goes to the stream itself until the reader of the output
/// went away; from then on each fails with `BrokenPipe`, and the stream gets nothing more.
#[derive(Drop)]
pub struct Errors<'a, E> {
    inner: E,
    pipe: &'a Pipe,
}

impl<'a, W: Write> Write for Output<'a, W> {
    ghost contents = { λ output. W.contents output.inner };

    fn write(&mut self, buf: &[u8]) -> io::Result<usize> {
        let result = self.inner.write(buf);
        if let Err(fault) = &result {
            self.pipe.note(fault);
        }
        result
    }

    fn flush(&mut self) -> io::Result<()> {
        let result = self.inner.flush();
        if let Err(fault) = &result {
            self.pipe.note(fault);
        }
        result
    }
}

impl<'a, E: Write> Write for Errors<'a, E> {
    ghost contents = { λ errors. E.contents errors.inner };

    fn write(&mut self, buf: &[u8]) -> io::Result<usize> {
        if self.pipe.is_broken.get() {
            return Err(Error::from(ErrorKind::BrokenPipe));
        }
        self.inner.write(buf)
    }

    fn flush(&mut self) -> io::Result<()> {
        self.inner.flush()
    }
}

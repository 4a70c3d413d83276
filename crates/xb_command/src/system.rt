// What the system gives a program: its words and its files.
ghost use Rattle.std.specs.Prelude.{◌≡◌, None, Some, IfErr, IfOk, IfSome, take};
ghost use Rattle.xb_command.specs.Files.{Bytes, HasBytes, ReadsBytes};

use std::alloc::Global;
use std::io::{self, BufReader, ErrorKind, Read};
use std::rt::{self, Env};
use std::{env, fs};

/// The most bytes that a file of the system may have where it is read whole: 64 MiB, as many as the longest text that a
/// program takes.
pub const MOST_FILE_BYTES: u64 = 67_108_864;

/// Files by their names: those that are read whole, and those that are read as streams.
pub trait Files {
    /// What reads a file as a stream.
    type Reader: Read + Drop;

    // What the files have.
    ghost bytes: { Self → Bytes } = { λ _ _. None };

    /// The bytes of a file, or why it could not be read.
    fn read(&self, alloc: Global, name: &str) -> io::Result<Vec<u8>>
        ensures { IfOk result (λ file. HasBytes (bytes self.now) name.now file.items) };

    /// A reader of a file from its beginning, or why it cannot be opened.
    fn open(&self, alloc: Global, name: &str) -> io::Result<Self::Reader>
        ensures { IfOk result (λ r. ReadsBytes (bytes self.now) name.now (Self.Reader.remaining r)) };

    /// The first 12 bytes of a file that can be read more than once; of another, as a pipe, none.
    fn beginning(&self, alloc: Global, name: &str) -> io::Result<Vec<u8>>
        ensures { IfOk result (λ first. IfSome (bytes self.now name.now) (λ known. first.items ≡ take 12 known)) };
}

/// The files of the system, whose bytes no contract knows. One is read whole up to the most that it may have and no
/// further: a longer one, as a device that never ends, is `ErrorKind::FileTooLarge`. A folder is no file.
#[derive(Drop)]
pub struct SystemFiles<'a, R> {
    /// What reads them.
    pub rt: &'a R,
}

impl<'a, R: rt::Files> Files for SystemFiles<'a, R> {
    type Reader = BufReader<R::File>;

    fn read(&self, alloc: Global, name: &str) -> io::Result<Vec<u8>> {
        let mut bytes = Vec::new(alloc);
        // one byte more than a file may have tells that it has too many
        let mut file = self.open(alloc, name)?.take(MOST_FILE_BYTES + 1);
        if file.read_to_end(&mut bytes)? as u64 > MOST_FILE_BYTES {
            return Err(io::Error::from(ErrorKind::FileTooLarge));
        }
        Ok(bytes)
    }

    fn open(&self, alloc: Global, name: &str) -> io::Result<BufReader<R::File>> {
        if fs::metadata(self.rt, name)?.is_dir() {
            return Err(io::Error::from(ErrorKind::IsADirectory));
        }
        BufReader::new(alloc, fs::open(self.rt, name)?)
    }

    fn beginning(&self, alloc: Global, name: &str) -> io::Result<Vec<u8>> {
        let mut bytes = Vec::new(alloc);
        if fs::metadata(self.rt, name)?.is_file() {
            fs::open(self.rt, name)?.take(12).read_to_end(&mut bytes)?;
        }
        Ok(bytes)
    }
}

/// The words of the command line, the program's name first. `Err` where one is not UTF-8, or memory ran out.
pub fn words_of_process<R: Env + AllocGlobal>(rt: &R) -> io::Result<Vec<String>> {
    Ok(env::args(rt)?.collect(rt.alloc())?)
}

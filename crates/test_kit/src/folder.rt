// Files that tests name.
use std::alloc::Global;
use std::io::{self, ErrorKind};
use xb_command::Files;

/// The files that there are, each by its name. Another name is not found.
#[derive(Clone, Copy)]
pub struct Folder(
    /// The names, and what the files hold.
    pub &'static [(&'static str, &'static [u8])],
);

impl Folder {
    // What a file holds.
    fn bytes_of(&self, name: &str) -> io::Result<&'static [u8]> {
        for (other, bytes) in self.0 {
            if *other == name {
                return Ok(*bytes);
            }
        }
        Err(io::Error::from(ErrorKind::NotFound))
    }
}

impl Files for Folder {
    type Reader = &'static [u8];

    fn read(&self, alloc: Global, name: &str) -> io::Result<Vec<u8>> {
        let mut file = Vec::new(alloc);
        file.extend_from_slice(self.bytes_of(name)?)?;
        Ok(file)
    }

    fn open(&self, _alloc: Global, name: &str) -> io::Result<&'static [u8]> {
        self.bytes_of(name)
    }

    fn beginning(&self, alloc: Global, name: &str) -> io::Result<Vec<u8>> {
        let mut first = Vec::new(alloc);
        let bytes = self.bytes_of(name)?;
        first.extend_from_slice(bytes.get(..12).unwrap_or(bytes))?;
        Ok(first)
    }
}

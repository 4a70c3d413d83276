// The decks of parts in files of the system.
use crate::decks::PartDecks;
use crate::list::deck_name;
use crate::range::LineRange;
use crate::split_fault::MakeFault;
use crate::split_files::SplitFiles;
use crate::split_words::SplitRequest;
use std::alloc::Global;
use std::fs::{self, OpenFile};
use std::io::{self, BufReader, BufWriter, ErrorKind, Write};
use std::rt;
use xb_command::SystemFiles;

// How many bytes are read or written at once.
const BUFFER_BYTES: usize = 65_536;

/// The decks of parts, each a file that is written.
#[derive(Drop)]
pub struct DeckFiles<F: Write + Drop> {
    files: Vec<BufWriter<F>>,
}

impl<F: Write + OpenFile + Drop> PartDecks for DeckFiles<F> {
    fn write(&mut self, part: usize, bytes: &[u8]) -> io::Result<()> {
        match self.files.get_mut(part) {
            Some(file) => file.write_all(bytes),
            None => Err(io::Error::from(ErrorKind::NotFound)),
        }
    }

    fn keep(&mut self) -> io::Result<()> {
        for file in self.files.iter_mut() {
            file.flush()?;
            file.get_ref().sync_all()?;
        }
        Ok(())
    }
}

// The name of a folder without the slashes at its end, which a shell puts there. One that has no name of
// its own is refused, as `.` is.
fn named_folder(folder: &str) -> io::Result<&str> {
    let name = folder.trim_end_matches('/');
    match name.rsplit('/').next() {
        None | Some("" | "." | "..") => Err(io::Error::other("it has no name of its own")),
        Some(_) => Ok(name),
    }
}

// The name of a folder until its decks are whole.
fn unfinished(alloc: Global, folder: &str) -> io::Result<String> {
    let name = named_folder(folder)?;
    Ok(format!(in alloc; "{name}.incomplete")?)
}

// Makes an empty file in a folder for each range.
fn create_decks<R: rt::Files + AllocGlobal>(
    rt: &R,
    folder: &str,
    ranges: &[LineRange],
) -> io::Result<DeckFiles<R::File>> {
    let alloc = rt.alloc();
    let mut files = Vec::new(alloc);
    for range in ranges {
        let name = deck_name(alloc, *range)?;
        let path = format!(in alloc; "{folder}/{name}")?;
        let file = fs::create(rt, &path)?;
        files.push(BufWriter::with_capacity(alloc, BUFFER_BYTES, file)?)?;
    }
    Ok(DeckFiles { files })
}

// Writes a text to a new file, and puts it on the disk.
fn write_file<R: rt::Files>(rt: &R, path: &str, text: &str) -> io::Result<()> {
    let mut file = fs::create(rt, path)?;
    file.write_all(text.as_bytes())?;
    file.sync_all()
}

// Puts a folder itself on the disk: the names in it.
fn sync_folder<R: rt::Files>(rt: &R, folder: &str) -> io::Result<()> {
    fs::open(rt, folder)?.sync_all()
}

// Puts the list into the folder of the decks, and gives that folder its name; the list has another one yet.
fn name_folder<R: rt::Files + AllocGlobal>(
    rt: &R,
    made: &str,
    folder: &str,
    list: &str,
) -> io::Result<()> {
    let unlisted = format!(in rt.alloc(); "{made}/parts.txt.incomplete")?;
    write_file(rt, &unlisted, list)?;
    sync_folder(rt, made)?;
    fs::rename(rt, made, folder)
}

// Gives the list in a folder its name.
fn name_list<R: rt::Files + AllocGlobal>(rt: &R, folder: &str) -> io::Result<()> {
    let unnamed = format!(in rt.alloc(); "{folder}/parts.txt.incomplete")?;
    let named = format!(in rt.alloc(); "{folder}/parts.txt")?;
    fs::rename(rt, &unnamed, &named)?;
    sync_folder(rt, folder)
}

// Takes a folder away where a step failed, as far as that can be done.
fn or_none_left<R: rt::Files + AllocGlobal>(
    rt: &R,
    folder: &str,
    step: io::Result<()>,
) -> io::Result<()> {
    if step.is_err() {
        let _ = fs::remove_dir_all(rt, folder);
    }
    step
}

impl<'a, R: rt::Files + AllocGlobal + Clone + Drop> SplitFiles for SystemFiles<'a, R> {
    type Deck = BufReader<R::File>;

    type Parts = DeckFiles<R::File>;

    fn open(&self, alloc: Global, big: &str) -> io::Result<BufReader<R::File>> {
        let big = if big == "-" { "/dev/stdin" } else { big };
        // a pipe cannot be read twice, and would be waited for
        if !fs::metadata(self.rt, big)?.is_file() {
            return Err(io::Error::other("it is no file"));
        }
        Ok(BufReader::with_capacity(alloc, BUFFER_BYTES, fs::open(self.rt, big)?)?)
    }

    fn has_any(&self, _alloc: Global, folder: &str) -> io::Result<bool> {
        match fs::read_dir(self.rt, named_folder(folder)?) {
            Ok(mut names) => Ok(names.next().is_some()),
            Err(error) if error.kind() == ErrorKind::NotFound => Ok(false),
            Err(error) => Err(error),
        }
    }

    fn make(
        &mut self,
        alloc: Global,
        request: &SplitRequest<'_>,
        ranges: &[LineRange],
    ) -> Result<DeckFiles<R::File>, MakeFault> {
        let made = match unfinished(alloc, request.folder) {
            Ok(made) => made,
            Err(error) => return Err(MakeFault::Folder(error)),
        };
        if let Err(error) = fs::create_dir(self.rt, &made) {
            return Err(MakeFault::Folder(error));
        }
        match create_decks(self.rt, &made, ranges) {
            Ok(decks) => Ok(decks),
            Err(error) => {
                let _ = fs::remove_dir_all(self.rt, &made);
                Err(MakeFault::Part(error))
            }
        }
    }

    fn name(
        &mut self,
        alloc: Global,
        request: &SplitRequest<'_>,
        _parts: DeckFiles<R::File>,
        list: &str,
    ) -> io::Result<()> {
        let made = unfinished(alloc, request.folder)?;
        let folder = named_folder(request.folder)?;
        or_none_left(self.rt, &made, name_folder(self.rt, &made, folder, list))?;
        or_none_left(self.rt, folder, name_list(self.rt, folder))
    }

    fn give_up(&mut self, alloc: Global, request: &SplitRequest<'_>, _parts: DeckFiles<R::File>) {
        if let Ok(made) = unfinished(alloc, request.folder) {
            let _ = fs::remove_dir_all(self.rt, &made);
        }
    }
}

// The wires of a recording, with how many edges each has.
ghost use Rattle.std.specs.Prelude.{◌≡◌, ◌≤◌, ◌++◌, ◌∷◌, [], ℕ, None, Some, IfErr, IfNone, IfOk, IfSome, List, OnOk, false, length, map, string_bytes, true};
ghost use Rattle.std.specs.Io.KnownBytes.{Consumes, IsAtEnd, prepend_known};
ghost use Rattle.xb_recording.specs.Beginnings.{form_told};
ghost use Rattle.xb_recording.specs.Says.{is_text};
ghost use Rattle.xb_loop.specs.Listing.{CountsMore, CountsOn, CountsRest, BeginsUntold, HasEdges, IsCount, IsFromOutside, IsUnlisted, ListsWires, edges_of};

use crate::counts::EdgeCounts;
use crate::found_names::wires_named;
use crate::names::WireNames;
use std::alloc::{AllocError, Global};
use std::fmt;
use std::io::Read;
use thiserror::Error;
use xb_contact::{Event, Refusal};
use xb_feed::{Reads, Unread, read_once};
use xb_recording::{Format, Reader, Told, Wanted, told_format, why_untold};
use xb_samples::Threshold;

// How many bytes are read at once.
const BUFFER_BYTES: usize = 8_192;

/// So many first bytes of a recording tell its wires, or all of it where it has fewer.
pub const MOST_BEGINNING_BYTES: usize = 131_072;

/// The wires of a recording.
#[derive(Debug, Drop)]
pub struct Listing {
    /// Their names.
    pub wires: WireNames,
    /// How many edges each has, in one order with the names, where the recording is understood to its end.
    pub edges: Option<Vec<u64>>,
}

/// Why the wires of a recording are not listed.
#[derive(Debug, Drop, Error)]
pub enum ListFault {
    /// Its form is told by nothing, or it is a file of several.
    Untold(Refusal),
    /// A read failed, an interrupted one too, or the recording had not ended after 2^64 - 1 reads.
    Read(Unread),
    /// Memory ran out.
    NoMemory,
}

impl fmt::Display for ListFault {
    ghost use Rattle.std.specs.Prelude.{Some};
    ghost use Rattle.xb_loop.specs.FaultTexts.{list_text};

    ghost output = { λ fault. Some (list_text fault) };

    fn fmt<W: fmt::Write>(&self, f: &mut fmt::Formatter<W>) -> fmt::Result {
        match self {
            ListFault::Untold(refusal) => write!(f, "the recording: {refusal}"),
            ListFault::Read(_) => f.write_str("the recording could not be read"),
            ListFault::NoMemory => f.write_str("out of memory"),
        }
    }
}

impl From<AllocError> for ListFault {
    ghost use Rattle.xb_loop.specs.declared.listing.ListFault.TheVariants.{NoMemory};

    ghost from_gives = { λ _ e. e ≡ NoMemory };

    fn from(_error: AllocError) -> ListFault {
        ListFault::NoMemory
    }
}

impl From<Unread> for ListFault {
    ghost use Rattle.xb_loop.specs.declared.listing.ListFault.TheVariants.{Read};

    ghost from_gives = { λ unread e. e ≡ Read unread };

    fn from(unread: Unread) -> ListFault {
        ListFault::Read(unread)
    }
}

// Why the edges of a recording are not counted.
#[derive(Clone, Copy)]
enum CountFault {
    // It is refused.
    Refused(Refusal),
    // A read failed.
    Read(Unread),
    // Memory ran out.
    NoMemory,
}

impl From<AllocError> for CountFault {
    ghost use Rattle.xb_loop.specs.declared.listing.CountFault.TheVariants.{NoMemory};

    ghost from_gives = { λ _ e. e ≡ NoMemory };

    fn from(_error: AllocError) -> CountFault {
        CountFault::NoMemory
    }
}

impl From<Refusal> for CountFault {
    ghost use Rattle.xb_loop.specs.declared.listing.CountFault.TheVariants.{Refused};

    ghost from_gives = { λ refusal e. e ≡ Refused refusal };

    fn from(refusal: Refusal) -> CountFault {
        CountFault::Refused(refusal)
    }
}

impl From<Unread> for CountFault {
    ghost use Rattle.xb_loop.specs.declared.listing.CountFault.TheVariants.{Read};

    ghost from_gives = { λ unread e. e ≡ Read unread };

    fn from(unread: Unread) -> CountFault {
        CountFault::Read(unread)
    }
}

// The beginning of a recording, and whether that is all of it.
fn read_beginning<R: Read>(alloc: Global, input: &mut R) -> Result<(Vec<u8>, bool), ListFault>
    ensures read { IfOk result (λ read.
        Consumes (R.remaining input.old) (R.remaining input.new) read.0.items) }
    ensures end { IfOk result (λ read. read.1 ≡ true → IsAtEnd (R.remaining input.new)) }
    ensures long { IfOk result (λ read. read.1 ≡ false → MOST_BEGINNING_BYTES ≤ length read.0.items) }
    ensures failed { IfErr result IsFromOutside }
{
    let mut bytes = Vec::new(alloc);
    let mut buffer = [0u8; BUFFER_BYTES];
    while bytes.len() < MOST_BEGINNING_BYTES {
        let n = read_once(input, &mut buffer)?;
        if n == 0 {
            return Ok((bytes, true));
        }
        bytes.extend_from_slice(&buffer[..n])?;
    }
    Ok((bytes, false))
}

// The form of a recording, the one that is asked for or else that which its beginning tells.
fn form_of(asked: Option<Format>, beginning: &[u8], is_end: bool) -> Result<Format, ListFault>
    ensures asked { IfOk result (λ format. IfSome asked (λ named. format ≡ named)) }
    ensures told { IfOk result (λ format. IfNone asked
        ((later : List ℕ) → (is_end ≡ true → later ≡ [])
        → form_told (beginning.now ++ later) ≡ Some format)) }
    ensures none { IfErr result (λ fault. asked ≡ None) }
    ensures untold { IfErr result (BeginsUntold beginning.now is_end) }
{
    if let Some(format) = asked {
        return Ok(format);
    }
    match told_format(beginning, is_end) {
        Told::Form(format) => Ok(format),
        Told::Nothing | Told::More => Err(ListFault::Untold(why_untold(beginning))),
    }
}

// A recording whose edges are counted.
#[derive(Drop)]
struct Counter<'a> {
    reader: Reader<'a>,
    counts: EdgeCounts,
    events: Vec<Event>,
}

impl<'a> Counter<'a> {
    // A byte of a text.
    fn take_byte(&mut self, byte: u8) -> Result<(), CountFault>
        ensures { OnOk result (CountsOn self.old (byte ∷ []) self.new) }
    {
        self.reader.take_byte(byte, &mut self.events)?;
        self.counts.take(&self.events);
        Ok(())
    }

    // A piece of a text.
    fn take_text(&mut self, piece: &[u8]) -> Result<(), CountFault>
        ensures { OnOk result (CountsOn self.old piece.now self.new) }
    {
        for byte in piece {
            self.take_byte(*byte)?;
        }
        Ok(())
    }

    // A piece of samples.
    fn take_samples(&mut self, piece: &[u8]) -> Result<(), CountFault>
        requires { is_text self.old.reader.source ≡ false }
        ensures { OnOk result (CountsOn self.old piece.now self.new) }
    {
        self.reader.take_samples(piece, &mut self.events)?;
        self.counts.take(&self.events);
        Ok(())
    }

    // A piece of a recording.
    fn take(&mut self, piece: &[u8]) -> Result<(), CountFault>
        ensures { OnOk result (CountsOn self.old piece.now self.new) }
    {
        if self.reader.is_text() {
            self.take_text(piece)
        } else {
            self.take_samples(piece)
        }
    }

    // All that an input has.
    fn take_all<R: Read>(&mut self, input: &mut R) -> Result<(), CountFault>
        ensures counted { OnOk result
            (CountsMore self.old self.new (R.remaining input.old) (R.remaining input.new)) }
        ensures end { OnOk result (IsAtEnd (R.remaining input.new)) }
    {
        let mut buffer = [0u8; BUFFER_BYTES];
        let mut reads = Reads::new();
        'pieces: loop {
            let n = reads.read_once(input, &mut buffer)?;
            if n == 0 {
                return Ok(());
            }
            self.take(&buffer[..n])?;
        }
    }

    // The end of the recording.
    fn end(&mut self) -> Result<(), CountFault>
        ensures { OnOk result (CountsRest self.old [] self.new.counts.seen.items) }
    {
        self.reader.end(&mut self.events)?;
        self.counts.take(&self.events);
        Ok(())
    }

    // All of a recording of which this was read already.
    fn take_whole<R: Read>(&mut self, beginning: &[u8], input: &mut R) -> Result<(), CountFault>
        ensures { OnOk result (IfSome (prepend_known beginning.now (R.remaining input.old))
            (λ text. CountsRest self.old text self.new.counts.seen.items)) }
    {
        self.take(beginning)?;
        self.take_all(input)?;
        self.end()
    }
}

// The edges that were counted, in order.
fn edges_of(alloc: Global, counts: &EdgeCounts) -> Result<Vec<u64>, AllocError>
    ensures { IfOk result (λ edges. edges.items ≡ edges_of counts.now.seen.items) }
{
    let mut edges = Vec::new(alloc);
    for seen in counts.seen.iter() {
        edges.push(seen.edges)?;
    }
    Ok(edges)
}

// The edges of the wires that are wanted of a recording, of which this was read already.
fn count<R: Read>(
    alloc: Global,
    format: Format,
    wanted: &Wanted<'_>,
    beginning: &[u8],
    input: &mut R,
) -> Result<Vec<u64>, CountFault>
    ensures { IfOk result (λ edges. IfSome (prepend_known beginning.now (R.remaining input.old))
        (λ text. HasEdges format wanted.now text edges.items)) }
{
    let mut events = Vec::new(alloc);
    let reader = Reader::new(alloc, wanted, format, &mut events)?;
    let mut counts = EdgeCounts::new(alloc, wanted.wires.len())?;
    counts.take(&events);
    let mut counter = Counter {
        reader,
        counts,
        events,
    };
    counter.take_whole(beginning, input)?;
    Ok(edges_of(alloc, &counter.counts)?)
}

/// Names as texts that are lent.
pub(crate) fn lent<'b>(alloc: Global, names: &'b [String]) -> Result<Vec<&'b str>, AllocError>
    ensures { IfOk result (λ lent. map (λ name. name.now) lent.items ≡ map string_bytes names.now) }
{
    let mut lent = Vec::new(alloc);
    for name in names {
        lent.push(name.as_str())?;
    }
    Ok(lent)
}

// The edges of the wires of these names; `None` where the recording is refused.
fn edges_named<R: Read>(
    alloc: Global,
    format: Format,
    names: &[String],
    sound: (Option<u64>, Threshold),
    beginning: &[u8],
    input: &mut R,
) -> Result<Option<Vec<u64>>, ListFault>
    ensures counted { IfOk result (λ counted. IfSome counted (λ edges.
        IfSome (prepend_known beginning.now (R.remaining input.old))
        (λ text. IsCount format (map string_bytes names.now) sound.0 sound.1 text edges.items))) }
    ensures failed { IfErr result IsFromOutside }
{
    let wanted = Wanted {
        wires: lent(alloc, names)?,
        rate: sound.0,
        threshold: sound.1,
        lossy: true,
    };
    match count(alloc, format, &wanted, beginning, input) {
        Ok(edges) => Ok(Some(edges)),
        Err(CountFault::Refused(Refusal::NoMemory)) | Err(CountFault::NoMemory) => {
            Err(ListFault::NoMemory)
        }
        Err(CountFault::Refused(_)) => Ok(None),
        Err(CountFault::Read(unread)) => Err(ListFault::Read(unread)),
    }
}

/// The wires of a recording of this form, or of that which its beginning tells: their names, as its first 131,072
/// bytes tell them, and how many edges each has in all of it, by so many samples a second and this threshold. No
/// edge of gpiomon is refused as lost. Where the recording is refused, the names stand alone. It is a fault where
/// the form is told by nothing, a read failed or memory ran out. Memory does not grow with the recording.
pub fn list_wires<R: Read>(
    alloc: Global,
    asked: Option<Format>,
    sound: (Option<u64>, Threshold),
    input: &mut R,
) -> Result<Listing, ListFault>
    ensures listed { IfOk result (λ listing. IfSome (R.remaining input.old)
        (λ text. ListsWires asked sound.0 sound.1 text listing)) }
    ensures fault { IfErr result (λ fault. IfSome (R.remaining input.old)
        (λ text. IsUnlisted asked text fault)) }
{
    let (beginning, is_end) = read_beginning(alloc, input)?;
    let format = form_of(asked, &beginning, is_end)?;
    let wires = wires_named(alloc, format, &beginning, is_end)?;
    let edges = edges_named(alloc, format, &wires.names, sound, &beginning, input)?;
    Ok(Listing { wires, edges })
}

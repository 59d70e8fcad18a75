// Reads the parts of a recording that follow its header (FORMAT.md), in the file's order. No contract can say
// what a file holds, so contracts are over the bytes that a reader has, where they are known (specs/Read):
// what is held is what they stand for.
//
// Memory that ran out is no word about a file, so errors are `io::Error`s, whose kind tells it apart.
ghost use Rattle.std.specs.Prelude.{◌*◌, ◌/◌, ◌<◌, ◌≤◌, IfOk, IsErr, length, vec_len, ◌≡◌, map, pos};
ghost use Rattle.std.specs.Io.KnownBytes.{Consumes};
ghost use Rattle.std.specs.IoError.{error_kind};
ghost use Rattle.sizes.specs.declared.Size.{Size};
ghost use Rattle.slices.specs.LentSlicing.{slicing_of};
ghost use Rattle.pictures.specs.LentData.{given};
ghost use Rattle.recordings.specs.Held.{lent_held, planes_held, slicing_held};
ghost use Rattle.recordings.specs.Numbers.{number_at, numbers_read};
ghost use Rattle.recordings.specs.Read.{EntryCountRead, NumbersRead, PictureRead, PicturesIf, PicturesRead, slicing_told, TableIf, TableRead};
ghost use Rattle.recordings.specs.Slices.{record_at, table_read};
ghost use Rattle.recordings.specs.Tried.{shown};

use crate::both::Recorded;
use crate::grids::strengths_of;
use crate::orders::Shown;
use edges::{MbGrids, Offsets};
use pictures::Lent;
use sizes::Size;
use slices::{ChromaOffsets, SliceRecord, Slicing};
use std::alloc::Global;
use std::io;
use std::io::{ErrorKind, Read};

// What a header says: the size and the number of macroblocks of a picture, whether there are two pictures,
// list 1, an 8x8 grid, slices and reference tables, whether the strengths are free of grids, and the chroma
// offsets. Kept: (1) flags, as a recording's header has them; `two` and n as `FromFile` and `most_of` of
// specs/ take them.
#[derive(Clone, Copy, Debug, PartialEq, Eq)]
pub struct Head {
    pub size: Size,
    pub n: usize,
    pub two: bool,
    pub lists: bool,
    pub t8: bool,
    pub slices: bool,
    pub tables: bool,
    pub free: bool,
    pub chroma: ChromaOffsets,
}

// What the file says is no recording that this program knows.
pub fn refused(words: &str) -> io::Error
    ensures { error_kind result ≡ ErrorKind.InvalidData }
{
    io::Error::new(ErrorKind::InvalidData, words)
}

// So many bytes.
pub fn bytes<R: Read>(file: &mut R, alloc: Global, n: usize) -> io::Result<Vec<u8>>
    ensures len { IfOk result (λ s. vec_len s ≡ n) }
    ensures read { IfOk result (λ s. Consumes (R.remaining file.old) (R.remaining file.new) s.items) }
{
    let mut s = vec![in alloc; 0u8; n]?;
    file.read_exact(&mut s)?;
    Ok(s)
}

// A number of two bytes, the lower one first.
fn number(pair: &[u8; 2]) -> u16
    ensures { result ≡ number_at pair.now 0 }
{
    u16::from_le_bytes(*pair)
}

// The numbers that bytes stand for.
fn numbers_of(alloc: Global, raw: &[u8]) -> io::Result<Vec<u16>>
    ensures len { IfOk result (λ v. vec_len v ≡ length raw.now / 2) }
    ensures is { IfOk result (λ v. v.items ≡ numbers_read (length raw.now / 2) raw.now) }
{
    let (pairs, _) = raw.as_chunks::<2>();
    Ok(pairs.iter().map(number).collect(alloc)?)
}

// .. so many of them as a file holds them; more than 65536 are not read.
pub fn numbers<R: Read>(file: &mut R, alloc: Global, n: usize) -> io::Result<Vec<u16>>
    ensures too_many { 65536 < n → IsErr result }
    ensures len { IfOk result (λ v. vec_len v ≡ n) }
    ensures read { IfOk result (λ v. NumbersRead (R.remaining file.old) (R.remaining file.new) v.items) }
{
    if 65536 < n {
        return Err(refused("too many numbers"));
    }
    let raw = bytes(file, alloc, 2 * n)?;
    numbers_of(alloc, &raw)
}

// How many entries a table has, in two bytes. At most 64 are taken: twice what a list of the standard has,
// and more slices than any recording.
fn count<R: Read>(file: &mut R) -> io::Result<usize>
    ensures small { IfOk result (λ n. n ≤ 64) }
    ensures read { IfOk result (λ n. EntryCountRead (R.remaining file.old) (R.remaining file.new) n) }
{
    let mut two = [0u8; 2];
    file.read_exact(&mut two)?;
    let n = usize::from(number(&two));
    if 64 < n {
        return Err(refused("a table is too long"));
    }
    Ok(n)
}

fn picture(number: &u16) -> i32
    ensures { result ≡ pos number.now }
{
    i32::from(*number)
}

// The pictures that numbers name.
fn pictures_of(alloc: Global, numbers: &[u16]) -> io::Result<Vec<i32>>
    ensures len { IfOk result (λ v. vec_len v ≡ length numbers.now) }
    ensures is { IfOk result (λ v. v.items ≡ map pos numbers.now) }
{
    Ok(numbers.iter().map(picture).collect(alloc)?)
}

// The table of a reference list: for each index a picture's number.
fn pictures<R: Read>(file: &mut R, alloc: Global) -> io::Result<Vec<i32>>
    ensures len { IfOk result (λ v. vec_len v ≤ 64) }
    ensures read { IfOk result (λ v. PicturesRead (R.remaining file.old) (R.remaining file.new) v.items) }
{
    let n = count(file)?;
    let numbers = numbers(file, alloc, n)?;
    pictures_of(alloc, &numbers)
}

// .. where the recording has tables; else it is empty. Kept: (4) as `records_if`.
fn pictures_if<R: Read>(on: bool, file: &mut R, alloc: Global) -> io::Result<Vec<i32>>
    ensures len { IfOk result (λ v. vec_len v ≤ 64) }
    ensures read { IfOk result (λ v. PicturesIf on (R.remaining file.old) (R.remaining file.new) v.items) }
{
    if on {
        pictures(file, alloc)
    } else {
        Ok(Vec::new(alloc))
    }
}

// A record of a table of slices: its mode, A and B.
fn record(bytes: &[u8; 3]) -> SliceRecord
    ensures { result ≡ record_at bytes.now 0 }
{
    let [mode, a, b] = *bytes;
    SliceRecord {
        mode,
        a: a.cast_signed(),
        b: b.cast_signed(),
    }
}

// The table of slices that bytes stand for, three bytes a record.
fn table(alloc: Global, raw: &[u8]) -> io::Result<Vec<SliceRecord>>
    ensures len { IfOk result (λ v. vec_len v ≡ length raw.now / 3) }
    ensures is { IfOk result (λ v. v.items ≡ table_read (length raw.now / 3) raw.now) }
{
    let (records, _) = raw.as_chunks::<3>();
    Ok(records.iter().map(record).collect(alloc)?)
}

// .. as a file holds it, after its count.
fn records<R: Read>(file: &mut R, alloc: Global) -> io::Result<Vec<SliceRecord>>
    ensures len { IfOk result (λ v. vec_len v ≤ 64) }
    ensures read { IfOk result (λ v. TableRead (R.remaining file.old) (R.remaining file.new) v.items) }
{
    let n = count(file)?;
    let raw = bytes(file, alloc, 3 * n)?;
    table(alloc, &raw)
}

// .. where the recording has slices; else it is empty. Kept: (4) beside `pictures_if`: one for both would be
// told how to read by a closure, and what it reads by a relation, which is longer than the two.
fn records_if<R: Read>(on: bool, file: &mut R, alloc: Global) -> io::Result<Vec<SliceRecord>>
    ensures len { IfOk result (λ v. vec_len v ≤ 64) }
    ensures read { IfOk result (λ v. TableIf on (R.remaining file.old) (R.remaining file.new) v.items) }
{
    if on {
        records(file, alloc)
    } else {
        Ok(Vec::new(alloc))
    }
}

// Three planes, for so many macroblocks. Kept: (4) beside the `Frame` of arrivals: this one is read from a
// file and only looked at, that one is made and lent to be changed; what they share is three names.
#[derive(Drop)]
pub struct Frame {
    luma: Vec<u8>,
    u: Vec<u8>,
    v: Vec<u8>,
}

impl Frame {
    // .. 120 at most.
    pub fn read(file: &mut impl Read, alloc: Global, n: usize) -> io::Result<Frame> {
        if 120 < n {
            return Err(refused("a frame is too large"));
        }
        Ok(Frame {
            luma: bytes(file, alloc, 256 * n)?,
            u: bytes(file, alloc, 64 * n)?,
            v: bytes(file, alloc, 64 * n)?,
        })
    }

    // Kept: (4) alike in shape alone to `Grids::lent` of arrivals, which lends grids.
    pub fn shown(&self) -> Shown<'_>
        ensures { shown result ≡ planes_held self.now }
    {
        Shown {
            luma: &self.luma,
            u: &self.u,
            v: &self.v,
        }
    }
}

// What a file says of a picture's slices (`Slicing`), held.
#[derive(Drop)]
enum Slices {
    Single(Offsets),
    Table {
        chroma: ChromaOffsets,
        records: Vec<SliceRecord>,
        numbers: Vec<u16>,
    },
}

impl Slices {
    // What a header says of them, A and B, a table and its numbers.
    fn told(head: &Head, ab: &[u8; 2], records: Vec<SliceRecord>, numbers: Vec<u16>) -> Slices
        ensures { slicing_held result ≡ slicing_told head.now ab.now records.items numbers.items }
    {
        if head.slices {
            return Slices::Table {
                chroma: head.chroma,
                records,
                numbers,
            };
        }
        let [a, b] = *ab;
        Slices::Single(Offsets {
            a: i32::from(a.cast_signed()),
            b: i32::from(b.cast_signed()),
            chroma_u: head.chroma.u,
            chroma_v: head.chroma.v,
        })
    }

    fn lent(&self) -> Slicing<'_>
        ensures { slicing_of result ≡ slicing_held self.now }
    {
        match self {
            Slices::Single(offsets) => Slicing::Single(*offsets),
            Slices::Table {
                chroma,
                records,
                numbers,
            } => Slicing::Table {
                chroma: *chroma,
                records,
                numbers,
            },
        }
    }
}

// The parts of a picture, and whether the strengths derived from its grids are those of the file; nothing
// where they are free of grids.
#[derive(Drop)]
pub struct Held {
    same: Option<bool>,
    slices: Slices,
    strengths: Vec<u8>,
    qps: Vec<u8>,
    t8s: Vec<u8>,
}

// What is told of a picture that was read.
#[derive(Clone, Copy, Debug, PartialEq, Eq)]
pub struct Loaded<'a> {
    pub same: Option<bool>,
    pub lent: Lent<'a>,
}

impl Held {
    // Of 120 macroblocks at most. A and B of the picture stand for nothing beside slices, and are 0 there.
    pub fn read<R: Read>(file: &mut R, alloc: Global, head: &Head) -> io::Result<Held>
        ensures { IfOk result (λ l. PictureRead head.now (R.remaining file.old) l) }
    {
        if 120 < head.n {
            return Err(refused("a picture is too large"));
        }
        let mut ab = [0u8; 2];
        file.read_exact(&mut ab)?;
        if head.slices && ab != [0, 0] {
            return Err(refused("offsets beside slices"));
        }
        let records = records_if(head.slices, file, alloc)?;
        let pictures0 = pictures_if(head.tables, file, alloc)?;
        let pictures1 = pictures_if(head.tables, file, alloc)?;
        let qps = bytes(file, alloc, head.n)?;
        let t8s = bytes(file, alloc, if head.t8 { head.n } else { 0 })?;
        let numbers = numbers(file, alloc, if head.slices { head.n } else { 0 })?;
        let slices = Slices::told(head, &ab, records, numbers);
        let mut same = None;
        let strengths = if head.free {
            bytes(file, alloc, 32 * head.n)?
        } else {
            let mut made = vec![in alloc; 0u8; 32 * head.n]?;
            if !strengths_of(file, alloc, head, &pictures0, &pictures1, &t8s, &mut made)? {
                return Err(refused("a call is refused"));
            }
            let strengths = bytes(file, alloc, 32 * head.n)?;
            same = Some(check::same(&made, &strengths));
            strengths
        };
        Ok(Held {
            same,
            slices,
            strengths,
            qps,
            t8s,
        })
    }

    pub fn loaded(&self) -> Loaded<'_>
        ensures same { result.same ≡ self.now.same }
        ensures lent { (size : Size) → given size result.lent ≡ lent_held size self.now }
    {
        let grids = MbGrids {
            strengths: &self.strengths,
            qps: &self.qps,
            t8s: &self.t8s,
        };
        Loaded {
            same: self.same,
            lent: Lent {
                slicing: self.slices.lent(),
                grids,
            },
        }
    }
}

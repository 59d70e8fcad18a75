// The grids of a recording, and the strengths that are derived from them. No contract can say what a file
// holds, so `strengths_of` says of some grids, with the tables that are lent, that the strengths are theirs
// (`FromFile`); that they are the ones that were read is plain from its text alone.
ghost use Rattle.std.specs.Prelude.{◌≡◌, IfOk, IsErr, MatchResult, ◌≤◌, ◌<◌, length, map};
ghost use Rattle.laws.specs.Some.{every};
ghost use Rattle.motion.specs.Lent.{grids_of};
ghost use Rattle.recordings.specs.Grids.{served_at, derived_to, FromFile};
ghost use Rattle.recordings.specs.Numbers.{signed_number};
ghost use Rattle.recordings.specs.Read.{ReferencesRead};
ghost use Rattle.recordings.specs.Slices.{signed_of};

use crate::load::{Head, bytes, numbers, refused};
use crate::places::{column, row};
use motion::grids::{Grids, ReferenceList};
use std::alloc::Global;
use std::io;
use std::io::Read;
use strengths::Source;
use strengths::calls::derive_mb;

// One list's references and vectors, of so many blocks.
#[derive(Drop)]
struct References {
    references: Vec<i8>,
    vectors: Vec<i16>,
}

impl References {
    fn read<R: Read>(file: &mut R, alloc: Global, n: usize) -> io::Result<References>
        requires { n ≤ 1920 }
        ensures { IfOk result (λ r. ReferencesRead (R.remaining file.old) (R.remaining file.new) r) }
    {
        let raw = bytes(file, alloc, n)?;
        let numbers = numbers(file, alloc, 2 * n)?;
        let references = references_of(alloc, &raw)?;
        let vectors = vectors_of(alloc, &numbers)?;
        Ok(References {
            references,
            vectors,
        })
    }
}

// A byte that stands for -128 to 127.
fn signed(byte: &u8) -> i8
    ensures { result ≡ signed_of byte.now }
{
    byte.cast_signed()
}

// A number that stands for -32768 to 32767.
fn signed_number(number: &u16) -> i16
    ensures { result ≡ signed_number number.now }
{
    number.cast_signed()
}

fn references_of(alloc: Global, raw: &[u8]) -> io::Result<Vec<i8>>
    ensures { IfOk result (λ v. v.items ≡ map signed_of raw.now) }
{
    Ok(raw.iter().map(signed).collect(alloc)?)
}

fn vectors_of(alloc: Global, numbers: &[u16]) -> io::Result<Vec<i16>>
    ensures { IfOk result (λ v. v.items ≡ map signed_number numbers.now) }
{
    Ok(numbers.iter().map(signed_number).collect(alloc)?)
}

// The strengths of the first n macroblocks, and whether no call was refused. Kept: (4) by index, as
// `derived_to` counts them: no slice is gone over.
fn derive(source: &Source<'_>, n: usize, strengths: &mut [u8]) -> bool
    ensures served { result ≡ every n (served_at source.now.size source.now.t8s.now (grids_of source.now.grids) (length strengths.old)) }
    ensures leaves { strengths.new ≡ derived_to source.now.size source.now.field (grids_of source.now.grids) source.now.t8s.now n strengths.old }
{
    let w = source.size.w;
    let mut done = true;
    for i in 0..n {
        let x = column(i, w);
        let y = row(i, w);
        done &= derive_mb(source, x, y, strengths).is_ok();
    }
    done
}

// Reads the grids of at most 120 macroblocks of a picture and derives their strengths; false where a call was
// refused. What cannot be read leaves the strengths as they were.
pub fn strengths_of<'a>(
    file: &mut impl Read,
    alloc: Global,
    head: &Head,
    pictures0: &'a [i32],
    pictures1: &'a [i32],
    t8s: &'a [u8],
    strengths: &mut [u8],
) -> io::Result<bool>
    ensures too_large { 120 < head.now.n → IsErr result }
    ensures derived { MatchResult result (λ r. FromFile head.now.size head.now.two pictures0.now pictures1.now t8s.now head.now.n strengths.old r strengths.new) (λ e. strengths.new ≡ strengths.old) }
{
    let n = head.n;
    if 120 < n {
        return Err(refused("a picture is too large"));
    }
    let inter = bytes(file, alloc, 16 * n)?;
    let nnz = bytes(file, alloc, 16 * n)?;
    let first = References::read(file, alloc, 16 * n)?;
    let second = References::read(file, alloc, if head.lists { 16 * n } else { 0 })?;
    let grids = Grids {
        inter: &inter,
        nnz: &nnz,
        list0: ReferenceList {
            references: &first.references,
            vectors: &first.vectors,
            pictures: pictures0,
        },
        list1: ReferenceList {
            references: &second.references,
            vectors: &second.vectors,
            pictures: pictures1,
        },
    };
    let source = Source {
        size: head.size,
        field: head.two,
        t8s,
        grids,
    };
    Ok(derive(&source, n, strengths))
}

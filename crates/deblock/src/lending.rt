// What C lends to a filtering call, as the calls take it.
// Kept: (1) flat parameters and a part as a number: the C interface.
ghost use Rattle.std.specs.Prelude.{◌≡◌};
ghost use Rattle.slices.specs.LentSlicing.{slicing_of};
ghost use Rattle.slices.specs.Slicing.{single, sliced};
ghost use Rattle.deblock.specs.Numbers.{size_of, part_number, offsets, chroma_numbers};

use edges::{MbGrids, Offsets};
use pictures::Lent;
use sizes::{Part, Picture, Size};
use slices::{ChromaOffsets, SliceRecord, Slicing};

// The part that a number stands for: 0 a frame, 1 its top field, 2 its bottom field. Kept: (4) no `From`,
// which the language lets the crate of `Part` alone write: C's numbers are known here and not there.
fn part_of_number(k: u8) -> Part
    ensures { result ≡ part_number k }
{
    if k == 0 {
        return Part::Frame;
    }
    Part::Field(k - 1)
}

pub fn picture(w: usize, h: usize, part: u8) -> Picture
    ensures size { result.size ≡ size_of w h }
    ensures part { result.part ≡ part_number part }
{
    Picture {
        size: Size { w, h },
        part: part_of_number(part),
    }
}

// One pair of offsets for the picture, and those of chroma.
pub fn single<'l>(a: i32, b: i32, chroma_u: i32, chroma_v: i32) -> Slicing<'l>
    ensures { slicing_of result ≡ single (offsets a b chroma_u chroma_v) }
{
    Slicing::Single(Offsets {
        a,
        b,
        chroma_u,
        chroma_v,
    })
}

// .. a table of slices, and for each macroblock the number of its slice.
pub fn sliced<'l>(
    chroma_u: i32,
    chroma_v: i32,
    records: &'l [SliceRecord],
    numbers: &'l [u16],
) -> Slicing<'l>
    ensures { slicing_of result ≡ sliced (chroma_numbers chroma_u chroma_v) records.now numbers.now }
{
    let chroma = ChromaOffsets {
        u: chroma_u,
        v: chroma_v,
    };
    Slicing::Table {
        chroma,
        records,
        numbers,
    }
}

// All that is lent beside the planes.
pub fn lent_by<'l>(
    slicing: Slicing<'l>,
    strengths: &'l [u8],
    qps: &'l [u8],
    t8s: &'l [u8],
) -> Lent<'l>
    ensures slicing { slicing_of result.slicing ≡ slicing_of slicing.entry }
    ensures strengths { result.grids.strengths.now ≡ strengths.now }
    ensures qps { result.grids.qps.now ≡ qps.now }
    ensures t8s { result.grids.t8s.now ≡ t8s.now }
{
    let grids = MbGrids {
        strengths,
        qps,
        t8s,
    };
    Lent { slicing, grids }
}

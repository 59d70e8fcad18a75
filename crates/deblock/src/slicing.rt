// The calls that are lent a table of slices, for C.
// Kept: (1) flat parameters, numbers for answers and for parts, one function a call: the C interface; (4) the
// lines that make what is lent and the planes stand in each body, as in filtering.rt.
ghost use Rattle.edges.specs.Picture.{planes};
ghost use Rattle.pictures.specs.Checks.{lent_slices};
ghost use Rattle.pictures.specs.Rows.{RowOutcome, WholeOutcome};
ghost use Rattle.visits.specs.Promise.{VisitOutcome};
ghost use Rattle.deblock.specs.Numbers.{size_of, part_number, chroma_numbers};

use crate::lending::{lent_by, picture, sliced};
use edges::Planes;
use pictures::rows::{filter_rows, filter_whole};
use refusals::number;
use slices::SliceRecord;
use visits::visits::visit;

// A whole picture.
pub fn deblock_whole_slices<'l, 'p>(
    w: usize,
    h: usize,
    part: u8,
    chroma_u: i32,
    chroma_v: i32,
    slices: &'l [SliceRecord],
    numbers: &'l [u16],
    luma: &'p mut [u8],
    u: &'p mut [u8],
    v: &'p mut [u8],
    strengths: &'l [u8],
    qps: &'l [u8],
    t8s: &'l [u8],
) -> u32
    ensures { WholeOutcome (part_number part) (lent_slices (size_of w h) (chroma_numbers chroma_u chroma_v) slices.now numbers.now strengths.now qps.now t8s.now) (planes luma.old u.old v.old) result (planes luma.new u.new v.new) }
{
    let picture = picture(w, h, part);
    let slicing = sliced(chroma_u, chroma_v, slices, numbers);
    let lent = lent_by(slicing, strengths, qps, t8s);
    let mut planes = Planes { luma, u, v };
    number(filter_whole(picture, &mut planes, &lent))
}

// Rows first to last, the last not among them.
pub fn deblock_rows_slices<'l, 'p>(
    w: usize,
    h: usize,
    part: u8,
    first: usize,
    last: usize,
    chroma_u: i32,
    chroma_v: i32,
    slices: &'l [SliceRecord],
    numbers: &'l [u16],
    luma: &'p mut [u8],
    u: &'p mut [u8],
    v: &'p mut [u8],
    strengths: &'l [u8],
    qps: &'l [u8],
    t8s: &'l [u8],
) -> u32
    ensures { RowOutcome (part_number part) (lent_slices (size_of w h) (chroma_numbers chroma_u chroma_v) slices.now numbers.now strengths.now qps.now t8s.now) first last (planes luma.old u.old v.old) result (planes luma.new u.new v.new) }
{
    let picture = picture(w, h, part);
    let slicing = sliced(chroma_u, chroma_v, slices, numbers);
    let lent = lent_by(slicing, strengths, qps, t8s);
    let mut planes = Planes { luma, u, v };
    number(filter_rows(picture, first, last, &mut planes, &lent))
}

// One macroblock, marked once filtered.
pub fn deblock_visit_slices<'l, 'p>(
    w: usize,
    h: usize,
    part: u8,
    x: usize,
    y: usize,
    chroma_u: i32,
    chroma_v: i32,
    slices: &'l [SliceRecord],
    numbers: &'l [u16],
    luma: &'p mut [u8],
    u: &'p mut [u8],
    v: &'p mut [u8],
    strengths: &'l [u8],
    qps: &'l [u8],
    t8s: &'l [u8],
    marks: &mut [u8],
) -> u32
    ensures { VisitOutcome (part_number part) (lent_slices (size_of w h) (chroma_numbers chroma_u chroma_v) slices.now numbers.now strengths.now qps.now t8s.now) (planes luma.old u.old v.old, marks.old) (x, y) result (planes luma.new u.new v.new, marks.new) }
{
    let picture = picture(w, h, part);
    let slicing = sliced(chroma_u, chroma_v, slices, numbers);
    let lent = lent_by(slicing, strengths, qps, t8s);
    let mut planes = Planes { luma, u, v };
    number(visit(picture, x, y, &mut planes, &lent, marks))
}

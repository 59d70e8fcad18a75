// The calls that filter rows of a picture, for C.
// Kept: (1) flat parameters, numbers for answers and for parts, one function a call: the C interface; (4) the
// lines that make what a call takes stand in each body: a function for them would be told ten values or more,
// to save two lines.
ghost use Rattle.edges.specs.Picture.{planes};
ghost use Rattle.pictures.specs.Checks.{lent};
ghost use Rattle.pictures.specs.Rows.{RowOutcome, WholeOutcome};
ghost use Rattle.deblock.specs.Numbers.{size_of, part_number, offsets};

use crate::lending::{lent_by, picture, single};
use edges::Planes;
use pictures::rows::{filter_rows, filter_whole};
use refusals::number;

// A whole picture.
pub fn deblock_whole<'l, 'p>(
    w: usize,
    h: usize,
    part: u8,
    a: i32,
    b: i32,
    chroma_u: i32,
    chroma_v: i32,
    luma: &'p mut [u8],
    u: &'p mut [u8],
    v: &'p mut [u8],
    strengths: &'l [u8],
    qps: &'l [u8],
    t8s: &'l [u8],
) -> u32
    ensures { WholeOutcome (part_number part) (lent (size_of w h) (offsets a b chroma_u chroma_v) strengths.now qps.now t8s.now) (planes luma.old u.old v.old) result (planes luma.new u.new v.new) }
{
    let picture = picture(w, h, part);
    let slicing = single(a, b, chroma_u, chroma_v);
    let lent = lent_by(slicing, strengths, qps, t8s);
    let mut planes = Planes { luma, u, v };
    number(filter_whole(picture, &mut planes, &lent))
}

// Rows first to last, the last not among them.
pub fn deblock_rows<'l, 'p>(
    w: usize,
    h: usize,
    part: u8,
    first: usize,
    last: usize,
    a: i32,
    b: i32,
    chroma_u: i32,
    chroma_v: i32,
    luma: &'p mut [u8],
    u: &'p mut [u8],
    v: &'p mut [u8],
    strengths: &'l [u8],
    qps: &'l [u8],
    t8s: &'l [u8],
) -> u32
    ensures { RowOutcome (part_number part) (lent (size_of w h) (offsets a b chroma_u chroma_v) strengths.now qps.now t8s.now) first last (planes luma.old u.old v.old) result (planes luma.new u.new v.new) }
{
    let picture = picture(w, h, part);
    let slicing = single(a, b, chroma_u, chroma_v);
    let lent = lent_by(slicing, strengths, qps, t8s);
    let mut planes = Planes { luma, u, v };
    number(filter_rows(picture, first, last, &mut planes, &lent))
}

// The visit, for C.
// Kept: (1) flat parameters, numbers for answers and for parts, one function a call: the C interface; (4) the
// lines that make what is lent and the planes stand in the body, as in filtering.rt.
ghost use Rattle.edges.specs.Picture.{planes};
ghost use Rattle.pictures.specs.Checks.{lent};
ghost use Rattle.visits.specs.Promise.{VisitOutcome};
ghost use Rattle.deblock.specs.Numbers.{size_of, part_number, offsets};

use crate::lending::{lent_by, picture, single};
use edges::Planes;
use refusals::number;
use visits::visits::visit;

// One macroblock, marked once filtered.
pub fn deblock_visit<'l, 'p>(
    w: usize,
    h: usize,
    part: u8,
    x: usize,
    y: usize,
    a: i32,
    b: i32,
    chroma_u: i32,
    chroma_v: i32,
    luma: &'p mut [u8],
    u: &'p mut [u8],
    v: &'p mut [u8],
    strengths: &'l [u8],
    qps: &'l [u8],
    t8s: &'l [u8],
    marks: &mut [u8],
) -> u32
    ensures { VisitOutcome (part_number part) (lent (size_of w h) (offsets a b chroma_u chroma_v) strengths.now qps.now t8s.now) (planes luma.old u.old v.old, marks.old) (x, y) result (planes luma.new u.new v.new, marks.new) }
{
    let picture = picture(w, h, part);
    let slicing = single(a, b, chroma_u, chroma_v);
    let lent = lent_by(slicing, strengths, qps, t8s);
    let mut planes = Planes { luma, u, v };
    number(visit(picture, x, y, &mut planes, &lent, marks))
}

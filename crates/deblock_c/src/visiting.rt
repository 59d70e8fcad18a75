// The visit, for C.
// Kept: (1) flat parameters, numbers for answers and for parts, one function a call: the C interface.
ghost use Rattle.edges.specs.Picture.{planes};
ghost use Rattle.pictures.specs.Checks.{lent};
ghost use Rattle.visits.specs.Promise.{VisitOutcome};
ghost use Rattle.deblock.specs.Numbers.{size_of, part_number, offsets};

// One macroblock, marked once filtered.
#[unsafe(no_mangle)]
pub extern "C" fn deblock_visit(
    w: usize,
    h: usize,
    part: u8,
    x: usize,
    y: usize,
    a: i32,
    b: i32,
    chroma_u: i32,
    chroma_v: i32,
    luma: &mut [u8],
    u: &mut [u8],
    v: &mut [u8],
    strengths: &[u8],
    qps: &[u8],
    t8s: &[u8],
    marks: &mut [u8],
) -> u32
    ensures { VisitOutcome (part_number part) (lent (size_of w h) (offsets a b chroma_u chroma_v) strengths.now qps.now t8s.now) (planes luma.old u.old v.old, marks.old) (x, y) result (planes luma.new u.new v.new, marks.new) }
{
    deblock::visiting::deblock_visit(
        w, h, part, x, y, a, b, chroma_u, chroma_v, luma, u, v, strengths, qps, t8s, marks,
    )
}

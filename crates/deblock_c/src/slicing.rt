// The calls that are lent a table of slices, for C. They hold the table and do nothing but call.
// Kept: (1) flat parameters, numbers for answers and for parts, one function a call: the C interface.
ghost use Rattle.edges.specs.Picture.{planes};
ghost use Rattle.pictures.specs.Checks.{lent_slices};
ghost use Rattle.pictures.specs.Rows.{RowOutcome, WholeOutcome};
ghost use Rattle.visits.specs.Promise.{VisitOutcome};
ghost use Rattle.deblock.specs.Numbers.{size_of, part_number, chroma_numbers};

use slices::SliceRecord;

// A whole picture.
#[unsafe(no_mangle)]
pub extern "C" fn deblock_whole_slices(
    w: usize,
    h: usize,
    part: u8,
    chroma_u: i32,
    chroma_v: i32,
    slices: &[SliceRecord],
    numbers: &[u16],
    luma: &mut [u8],
    u: &mut [u8],
    v: &mut [u8],
    strengths: &[u8],
    qps: &[u8],
    t8s: &[u8],
) -> u32
    ensures { WholeOutcome (part_number part) (lent_slices (size_of w h) (chroma_numbers chroma_u chroma_v) slices.now numbers.now strengths.now qps.now t8s.now) (planes luma.old u.old v.old) result (planes luma.new u.new v.new) }
{
    deblock::slicing::deblock_whole_slices(
        w, h, part, chroma_u, chroma_v, slices, numbers, luma, u, v, strengths, qps, t8s,
    )
}

// Rows first to last, the last not among them.
#[unsafe(no_mangle)]
pub extern "C" fn deblock_rows_slices(
    w: usize,
    h: usize,
    part: u8,
    first: usize,
    last: usize,
    chroma_u: i32,
    chroma_v: i32,
    slices: &[SliceRecord],
    numbers: &[u16],
    luma: &mut [u8],
    u: &mut [u8],
    v: &mut [u8],
    strengths: &[u8],
    qps: &[u8],
    t8s: &[u8],
) -> u32
    ensures { RowOutcome (part_number part) (lent_slices (size_of w h) (chroma_numbers chroma_u chroma_v) slices.now numbers.now strengths.now qps.now t8s.now) first last (planes luma.old u.old v.old) result (planes luma.new u.new v.new) }
{
    deblock::slicing::deblock_rows_slices(
        w, h, part, first, last, chroma_u, chroma_v, slices, numbers, luma, u, v, strengths, qps,
        t8s,
    )
}

// One macroblock, marked once filtered.
#[unsafe(no_mangle)]
pub extern "C" fn deblock_visit_slices(
    w: usize,
    h: usize,
    part: u8,
    x: usize,
    y: usize,
    chroma_u: i32,
    chroma_v: i32,
    slices: &[SliceRecord],
    numbers: &[u16],
    luma: &mut [u8],
    u: &mut [u8],
    v: &mut [u8],
    strengths: &[u8],
    qps: &[u8],
    t8s: &[u8],
    marks: &mut [u8],
) -> u32
    ensures { VisitOutcome (part_number part) (lent_slices (size_of w h) (chroma_numbers chroma_u chroma_v) slices.now numbers.now strengths.now qps.now t8s.now) (planes luma.old u.old v.old, marks.old) (x, y) result (planes luma.new u.new v.new, marks.new) }
{
    deblock::slicing::deblock_visit_slices(
        w, h, part, x, y, chroma_u, chroma_v, slices, numbers, luma, u, v, strengths, qps, t8s,
        marks,
    )
}

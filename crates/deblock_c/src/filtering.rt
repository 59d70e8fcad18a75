// The calls that filter rows of a picture, for C.
// Kept: (1) flat parameters, numbers for answers and for parts, one function a call: the C interface.
ghost use Rattle.edges.specs.Picture.{planes};
ghost use Rattle.pictures.specs.Checks.{lent};
ghost use Rattle.pictures.specs.Rows.{RowOutcome, WholeOutcome};
ghost use Rattle.deblock.specs.Numbers.{size_of, part_number, offsets};

// A whole picture.
#[unsafe(no_mangle)]
pub extern "C" fn deblock_whole(
    w: usize,
    h: usize,
    part: u8,
    a: i32,
    b: i32,
    chroma_u: i32,
    chroma_v: i32,
    luma: &mut [u8],
    u: &mut [u8],
    v: &mut [u8],
    strengths: &[u8],
    qps: &[u8],
    t8s: &[u8],
) -> u32
    ensures { WholeOutcome (part_number part) (lent (size_of w h) (offsets a b chroma_u chroma_v) strengths.now qps.now t8s.now) (planes luma.old u.old v.old) result (planes luma.new u.new v.new) }
{
    deblock::filtering::deblock_whole(
        w, h, part, a, b, chroma_u, chroma_v, luma, u, v, strengths, qps, t8s,
    )
}

// Rows first to last, the last not among them.
#[unsafe(no_mangle)]
pub extern "C" fn deblock_rows(
    w: usize,
    h: usize,
    part: u8,
    first: usize,
    last: usize,
    a: i32,
    b: i32,
    chroma_u: i32,
    chroma_v: i32,
    luma: &mut [u8],
    u: &mut [u8],
    v: &mut [u8],
    strengths: &[u8],
    qps: &[u8],
    t8s: &[u8],
) -> u32
    ensures { RowOutcome (part_number part) (lent (size_of w h) (offsets a b chroma_u chroma_v) strengths.now qps.now t8s.now) first last (planes luma.old u.old v.old) result (planes luma.new u.new v.new) }
{
    deblock::filtering::deblock_rows(
        w, h, part, first, last, a, b, chroma_u, chroma_v, luma, u, v, strengths, qps, t8s,
    )
}

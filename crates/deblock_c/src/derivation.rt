// The strength calls, for C.
// Kept: (1) flat parameters, numbers for answers and for kinds, one function a call: the C interface.
ghost use Rattle.motion.specs.Grids.{grids};
ghost use Rattle.strengths.specs.Calls.{DeriveOutcome, FlagsOutcome, PlainOutcome, DeriveRowOutcome};
ghost use Rattle.deblock.specs.Numbers.{size_of, is_set, flagged, untrue_number};

// Strengths of a macroblock of which nothing is known.
#[unsafe(no_mangle)]
pub extern "C" fn deblock_strengths<'a>(
    w: usize,
    h: usize,
    field: u8,
    x: usize,
    y: usize,
    t8s: &[u8],
    inter: &[u8],
    nnz: &[u8],
    ref0: &[i8],
    mv0: &'a [i16],
    ref1: &[i8],
    mv1: &'a [i16],
    pictures0: &[i32],
    pictures1: &[i32],
    strengths: &mut [u8],
) -> u32
    ensures { PlainOutcome (size_of w h) (is_set field) x y t8s.now (grids inter.now nnz.now ref0.now mv0.now ref1.now mv1.now pictures0.now pictures1.now) strengths.old result strengths.new }
{
    deblock::derivation::deblock_strengths(
        w, h, field, x, y, t8s, inter, nnz, ref0, mv0, ref1, mv1, pictures0, pictures1, strengths,
    )
}

// Strengths with flags that the caller sets where they are true.
#[unsafe(no_mangle)]
pub extern "C" fn deblock_strengths_flags<'a>(
    w: usize,
    h: usize,
    field: u8,
    x: usize,
    y: usize,
    flat: u8,
    uniform: u8,
    t8s: &[u8],
    inter: &[u8],
    nnz: &[u8],
    ref0: &[i8],
    mv0: &'a [i16],
    ref1: &[i8],
    mv1: &'a [i16],
    pictures0: &[i32],
    pictures1: &[i32],
    strengths: &mut [u8],
) -> u32
    ensures { FlagsOutcome (size_of w h) (is_set field) (flagged x y flat uniform) t8s.now (grids inter.now nnz.now ref0.now mv0.now ref1.now mv1.now pictures0.now pictures1.now) strengths.old result strengths.new }
{
    deblock::derivation::deblock_strengths_flags(
        w, h, field, x, y, flat, uniform, t8s, inter, nnz, ref0, mv0, ref1, mv1, pictures0,
        pictures1, strengths,
    )
}

// Strengths of a macroblock whose kind is known. A number above 3 is a kind that is true of no grids.
#[unsafe(no_mangle)]
pub extern "C" fn deblock_strengths_kind<'a>(
    w: usize,
    h: usize,
    field: u8,
    x: usize,
    y: usize,
    kind: u8,
    t8s: &[u8],
    inter: &[u8],
    nnz: &[u8],
    ref0: &[i8],
    mv0: &'a [i16],
    ref1: &[i8],
    mv1: &'a [i16],
    pictures0: &[i32],
    pictures1: &[i32],
    strengths: &mut [u8],
) -> u32
    ensures { DeriveOutcome (size_of w h) (is_set field) x y t8s.now (grids inter.now nnz.now ref0.now mv0.now ref1.now mv1.now pictures0.now pictures1.now) (untrue_number (size_of w h) x y kind (grids inter.now nnz.now ref0.now mv0.now ref1.now mv1.now pictures0.now pictures1.now)) strengths.old result strengths.new }
{
    deblock::derivation::deblock_strengths_kind(
        w, h, field, x, y, kind, t8s, inter, nnz, ref0, mv0, ref1, mv1, pictures0, pictures1,
        strengths,
    )
}

// Strengths of a row of macroblocks. Of their kinds, those of all macroblocks of the picture are lent, or
// none.
#[unsafe(no_mangle)]
pub extern "C" fn deblock_strengths_row<'a>(
    w: usize,
    h: usize,
    field: u8,
    y: usize,
    kinds: &[u8],
    t8s: &[u8],
    inter: &[u8],
    nnz: &[u8],
    ref0: &[i8],
    mv0: &'a [i16],
    ref1: &[i8],
    mv1: &'a [i16],
    pictures0: &[i32],
    pictures1: &[i32],
    strengths: &mut [u8],
) -> u32
    ensures { DeriveRowOutcome (size_of w h) (is_set field) y kinds.now t8s.now (grids inter.now nnz.now ref0.now mv0.now ref1.now mv1.now pictures0.now pictures1.now) strengths.old result strengths.new }
{
    deblock::derivation::deblock_strengths_row(
        w, h, field, y, kinds, t8s, inter, nnz, ref0, mv0, ref1, mv1, pictures0, pictures1,
        strengths,
    )
}

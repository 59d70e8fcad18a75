// The strength calls, for C.
// Kept: (1) flat parameters, numbers for answers and for kinds, one function a call: the C interface.
ghost use Rattle.std.specs.Prelude.{◌≡◌};
ghost use Rattle.motion.specs.Grids.{grids};
ghost use Rattle.motion.specs.Lent.{grids_of};
ghost use Rattle.strengths.specs.Calls.{DeriveOutcome, FlagsOutcome, PlainOutcome, DeriveRowOutcome};
ghost use Rattle.deblock.specs.Numbers.{size_of, is_set, flagged, untrue_number};

use motion::grids::{Grids, ReferenceList};
use refusals::number;
use sizes::Size;
use strengths::Source;
use strengths::calls::{derive_known, derive_mb, derive_mb_bs, derive_row};
use strengths::kinds::{Flagged, Known};

// What strengths are derived from, as the calls take it.
fn source_lent<'a>(
    w: usize,
    h: usize,
    field: u8,
    t8s: &'a [u8],
    inter: &'a [u8],
    nnz: &'a [u8],
    ref0: &'a [i8],
    mv0: &'a [i16],
    ref1: &'a [i8],
    mv1: &'a [i16],
    pictures0: &'a [i32],
    pictures1: &'a [i32],
) -> Source<'a>
    ensures size { result.size ≡ size_of w h }
    ensures field { result.field ≡ is_set field }
    ensures t8s { result.t8s.now ≡ t8s.now }
    ensures grids { grids_of result.grids ≡ grids inter.now nnz.now ref0.now mv0.now ref1.now mv1.now pictures0.now pictures1.now }
{
    let list0 = ReferenceList {
        references: ref0,
        vectors: mv0,
        pictures: pictures0,
    };
    let list1 = ReferenceList {
        references: ref1,
        vectors: mv1,
        pictures: pictures1,
    };
    let grids = Grids {
        inter,
        nnz,
        list0,
        list1,
    };
    Source {
        size: Size { w, h },
        field: field != 0,
        t8s,
        grids,
    }
}

// Strengths of a macroblock of which nothing is known.
pub fn deblock_strengths<'a>(
    w: usize,
    h: usize,
    field: u8,
    x: usize,
    y: usize,
    t8s: &'a [u8],
    inter: &'a [u8],
    nnz: &'a [u8],
    ref0: &'a [i8],
    mv0: &'a [i16],
    ref1: &'a [i8],
    mv1: &'a [i16],
    pictures0: &'a [i32],
    pictures1: &'a [i32],
    strengths: &mut [u8],
) -> u32
    ensures { PlainOutcome (size_of w h) (is_set field) x y t8s.now (grids inter.now nnz.now ref0.now mv0.now ref1.now mv1.now pictures0.now pictures1.now) strengths.old result strengths.new }
{
    let source = source_lent(
        w, h, field, t8s, inter, nnz, ref0, mv0, ref1, mv1, pictures0, pictures1,
    );
    number(derive_mb(&source, x, y, strengths))
}

// Strengths with flags that the caller sets where they are true.
pub fn deblock_strengths_flags<'a>(
    w: usize,
    h: usize,
    field: u8,
    x: usize,
    y: usize,
    flat: u8,
    uniform: u8,
    t8s: &'a [u8],
    inter: &'a [u8],
    nnz: &'a [u8],
    ref0: &'a [i8],
    mv0: &'a [i16],
    ref1: &'a [i8],
    mv1: &'a [i16],
    pictures0: &'a [i32],
    pictures1: &'a [i32],
    strengths: &mut [u8],
) -> u32
    ensures { FlagsOutcome (size_of w h) (is_set field) (flagged x y flat uniform) t8s.now (grids inter.now nnz.now ref0.now mv0.now ref1.now mv1.now pictures0.now pictures1.now) strengths.old result strengths.new }
{
    let f = Flagged {
        x,
        y,
        flat: flat != 0,
        uniform: uniform != 0,
    };
    let source = source_lent(
        w, h, field, t8s, inter, nnz, ref0, mv0, ref1, mv1, pictures0, pictures1,
    );
    number(derive_mb_bs(&source, f, strengths))
}

// Strengths of a macroblock whose kind is known. A number above 3 is a kind that is true of no grids.
pub fn deblock_strengths_kind<'a>(
    w: usize,
    h: usize,
    field: u8,
    x: usize,
    y: usize,
    kind: u8,
    t8s: &'a [u8],
    inter: &'a [u8],
    nnz: &'a [u8],
    ref0: &'a [i8],
    mv0: &'a [i16],
    ref1: &'a [i8],
    mv1: &'a [i16],
    pictures0: &'a [i32],
    pictures1: &'a [i32],
    strengths: &mut [u8],
) -> u32
    ensures { DeriveOutcome (size_of w h) (is_set field) x y t8s.now (grids inter.now nnz.now ref0.now mv0.now ref1.now mv1.now pictures0.now pictures1.now) (untrue_number (size_of w h) x y kind (grids inter.now nnz.now ref0.now mv0.now ref1.now mv1.now pictures0.now pictures1.now)) strengths.old result strengths.new }
{
    let source = source_lent(
        w, h, field, t8s, inter, nnz, ref0, mv0, ref1, mv1, pictures0, pictures1,
    );
    let known = Known::from(kind);
    number(derive_known(&source, x, y, known, strengths))
}

// Strengths of a row of macroblocks. Of their kinds, those of all macroblocks of the picture are lent, or
// none.
pub fn deblock_strengths_row<'a>(
    w: usize,
    h: usize,
    field: u8,
    y: usize,
    kinds: &[u8],
    t8s: &'a [u8],
    inter: &'a [u8],
    nnz: &'a [u8],
    ref0: &'a [i8],
    mv0: &'a [i16],
    ref1: &'a [i8],
    mv1: &'a [i16],
    pictures0: &'a [i32],
    pictures1: &'a [i32],
    strengths: &mut [u8],
) -> u32
    ensures { DeriveRowOutcome (size_of w h) (is_set field) y kinds.now t8s.now (grids inter.now nnz.now ref0.now mv0.now ref1.now mv1.now pictures0.now pictures1.now) strengths.old result strengths.new }
{
    let source = source_lent(
        w, h, field, t8s, inter, nnz, ref0, mv0, ref1, mv1, pictures0, pictures1,
    );
    number(derive_row(&source, y, kinds, strengths))
}

// The chroma lines of a batch: as the luma lines, for its first edge, whose lines begin in row 0, and then
// for its second, whose lines begin in row 4.
// Kept: (1) that tC0 is in the tables is asked: `as_thresholds` of specs/ makes a `Thresholds` of any index.
// (4) `normal` and `strong` beside luma's: each lane has an alpha and a beta of its own here, there a cap or
// an alpha alone, and the rule is another. ROW, at most 4: a const parameter is an integer or a bool, so that
// no enum can stand there, and a bool would be made a row wherever it is read.
ghost use Rattle.std.specs.Prelude.{◌≡◌, ◌≤◌};
ghost use Rattle.laws.specs.Loop.{up_to};
ghost use Rattle.lines.specs.Depth.{eight};
ghost use Rattle.batches.specs.Lanes.{is_weak, is_strong};
ghost use Rattle.batches.specs.Lines.{InTables, from_row, uv_strength, short_at, pass_of};

use crate::lanes::{Both, any_strong, any_weak, eight_each, strong_row, two_each};
use lines::planes::chroma_strong;
use lines::tables::cap_at;
use narrow::planes::chroma_capped;

// The lines of the edge that begins in row ROW, at strengths 1 to 3. Kept: (4) k is a line's column, by which
// the batch is written, here and below.
#[tactic(auto, using(crate::proofs::Rulesets::passes))]
fn normal<const ROW: usize>(t: [u8; 128], e: Both) -> [u8; 128]
    requires row_bound { ROW ≤ 4 }
    requires in_tables { InTables e }
    ensures { result ≡ up_to 16 (pass_of is_weak (uv_strength e.s) (short_at eight (from_row ROW) e.s e.u e.v)) t }
{
    if !any_weak(e.s) {
        return t;
    }
    let caps = two_each(|i| cap_at(e.u.index, i), |i| cap_at(e.v.index, i), e.s);
    let al = eight_each(e.u.alpha, e.v.alpha);
    let be = eight_each(e.u.beta, e.v.beta);
    let mut r = t;
    for k in 0..16usize {
        chroma_capped(&mut r, 16 * ROW + k, 16, al[k], be[k], caps[k]);
    }
    r
}

// .. at strength 4.
#[tactic(auto, using(crate::proofs::Rulesets::passes))]
fn strong<const ROW: usize>(t: [u8; 128], e: Both) -> [u8; 128]
    requires { ROW ≤ 4 }
    ensures { result ≡ up_to 16 (pass_of is_strong (uv_strength e.s) (short_at eight (from_row ROW) e.s e.u e.v)) t }
{
    if !any_strong(e.s) {
        return t;
    }
    let u = strong_row(e.u);
    let v = strong_row(e.v);
    let al = two_each(|i| u[i], |i| v[i], e.s);
    let be = eight_each(e.u.beta, e.v.beta);
    let mut r = t;
    for k in 0..16usize {
        chroma_strong(&mut r, 16 * ROW + k, 16, al[k], be[k]);
    }
    r
}

// Each line of it at its own strength.
#[tactic(auto, using(crate::proofs::Rulesets::both_passes))]
pub fn edge<const ROW: usize>(t: [u8; 128], e: Both) -> [u8; 128]
    requires row_bound { ROW ≤ 4 }
    requires in_tables { InTables e }
    ensures { result ≡ up_to 16 (short_at eight (from_row ROW) e.s e.u e.v) t }
{
    strong::<ROW>(normal::<ROW>(t, e), e)
}

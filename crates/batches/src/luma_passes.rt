// The luma lines of a batch: those of strengths 1 to 3 in one pass, those of strength 4 in another. A pass
// leaves a line that it lends a cap or an alpha of 0.
// Kept: (1) that tC0 is in the tables is asked: `as_thresholds` of specs/ makes a `Thresholds` of any index.
// (4) `normal` and `strong` beside chroma's: each lane has a cap or an alpha of its own here, there a beta
// too, and the rule is another.
ghost use Rattle.std.specs.Prelude.{◌≡◌};
ghost use Rattle.laws.specs.Loop.{up_to};
ghost use Rattle.lines.specs.Depth.{eight};
ghost use Rattle.batches.specs.Lanes.{is_weak, is_strong};
ghost use Rattle.batches.specs.Lines.{InTable, segment_strength, long_at, pass_of};

use crate::lanes::{Single, any_strong, any_weak, four_each, strong_row};
use lines::planes::luma_strong;
use lines::tables::cap_at;
use narrow::planes::luma_capped;

// The lines of strengths 1 to 3. Kept: (4) k is a line's column, by which the batch is written.
#[tactic(auto, using(crate::proofs::Rulesets::passes))]
fn normal(t: [u8; 128], e: Single) -> [u8; 128]
    requires { InTable e }
    ensures { result ≡ up_to 16 (pass_of is_weak (segment_strength 4 e.s) (long_at eight e.s e.by)) t }
{
    if !any_weak(e.s) {
        return t;
    }
    let caps = four_each(|i| cap_at(e.by.index, i), e.s);
    let alpha = e.by.alpha;
    let beta = e.by.beta;
    let mut r = t;
    for k in 0..16usize {
        luma_capped(&mut r, k, 16, alpha, beta, caps[k]);
    }
    r
}

// The lines of strength 4. Kept: (4) k is a line's column, by which the batch is written.
#[tactic(auto, using(crate::proofs::Rulesets::passes))]
fn strong(t: [u8; 128], e: Single) -> [u8; 128]
    ensures { result ≡ up_to 16 (pass_of is_strong (segment_strength 4 e.s) (long_at eight e.s e.by)) t }
{
    if !any_strong(e.s) {
        return t;
    }
    let row = strong_row(e.by);
    let al = four_each(|i| row[i], e.s);
    let beta = e.by.beta;
    let mut r = t;
    for k in 0..16usize {
        luma_strong(&mut r, k, 16, al[k], beta);
    }
    r
}

// Each line at its own strength.
#[tactic(auto, using(crate::proofs::Rulesets::both_passes))]
pub fn luma_batch(t: [u8; 128], e: Single) -> [u8; 128]
    requires { InTable e }
    ensures { result ≡ up_to 16 (long_at eight e.s e.by) t }
{
    strong(normal(t, e), e)
}

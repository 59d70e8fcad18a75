// Samples moved between both chroma planes and a batch, 8 rows of 8 of each. A horizontal edge's rows are
// halves of the batch's; a vertical edge's, U's and then V's, are turned by zips.
// Kept: (4) that the rows lie in the planes: a fact of two values, a plane and where the rows stand. u and v
// apart: of a struct of two `&mut` `store_both` would have to say too that they are still the planes that
// were lent.
ghost use Rattle.std.specs.Prelude.{◌≡◌, ◌+◌, ◌*◌, ◌≤◌, length};
ghost use Rattle.batches.specs.Moves.{copied_row, moved_rows, rows_in, cols_in, empty_batch};

// 8 samples of p, from the place `from` on, to t, from the place `to` on.
// Kept: (2) sample by sample. By `copy_from_slice`, as luma's are copied, whole pictures took 3 to 4 in 100
// longer, the bar being 2 (docs/DECISIONS.md 155).
#[tactic(auto, using(laws::proofs::Loop::loops), unfolding(crate::specs::Moves::copied_row))]
fn copy8(t: &mut [u8], to: usize, p: &[u8], from: usize)
    requires { (to + 8 ≤ length t.old) × (from + 8 ≤ length p.now) }
    ensures { t.new ≡ copied_row 8 to from p.now t.old }
{
    for k in 0..8usize {
        t[to + k] = p[from + k];
    }
}

// V first: begun like `load_cols`, the loads that both begin with are taken out of both as single bytes,
// which costs 4 to 5 instructions in 100 on x86-64.
// Kept: (2) two functions. In place of both, one that loads a plane's rows was tried, called for U and for V:
// whole pictures took 3 to 4 in 100 longer, the bar being 2 (docs/DECISIONS.md 155). (4) r is a row's number.
#[tactic(auto, using(laws::proofs::Loop::loops))]
pub fn load_rows(u: &[u8], v: &[u8], at: usize, stride: usize) -> [u8; 128]
    requires { (at + 7 * stride + 8 ≤ length u.now) × (at + 7 * stride + 8 ≤ length v.now) }
    ensures { result ≡ rows_in 0 8 at stride u.now (rows_in 8 8 at stride v.now empty_batch) }
{
    let mut t = [0u8; 128];
    for r in 0..8usize {
        copy8(&mut t, 8 + r * 16, v, at + r * stride);
        copy8(&mut t, r * 16, u, at + r * stride);
    }
    t
}

// Kept: (2) beside `load_rows`, which says what one function for both takes. (4) r is a row's number.
#[tactic(auto, using(laws::proofs::Loop::loops))]
pub fn load_cols(u: &[u8], v: &[u8], at: usize, stride: usize) -> [u8; 128]
    requires { (at + 7 * stride + 8 ≤ length u.now) × (at + 7 * stride + 8 ≤ length v.now) }
    ensures { result ≡ cols_in 8 8 at stride v.now (cols_in 0 8 at stride u.now empty_batch) }
{
    let mut t = [0u8; 128];
    for r in 0..8usize {
        copy8(&mut t, r * 8, u, at + r * stride);
        copy8(&mut t, 64 + r * 8, v, at + r * stride);
    }
    t
}

// Each plane's half of the batch, back into the plane: V's begins at the place FROM, and BY samples are from
// a row to the next. Kept: (4) r is a row's number.
#[tactic(auto, using(laws::proofs::Loop::loops), unfolding(crate::specs::Moves::moved_rows))]
pub fn store_both<const FROM: usize, const BY: usize>(
    u: &mut [u8],
    v: &mut [u8],
    at: usize,
    stride: usize,
    t: [u8; 128],
)
    requires in_batch { FROM + 7 * BY + 8 ≤ 128 }
    requires in_planes { (at + 7 * stride + 8 ≤ length u.old) × (at + 7 * stride + 8 ≤ length v.old) }
    ensures u_after { u.new ≡ moved_rows 8 8 at stride 0 BY t u.old }
    ensures v_after { v.new ≡ moved_rows 8 8 at stride FROM BY t v.old }
{
    for r in 0..8usize {
        copy8(u, at + r * stride, &t, r * BY);
        copy8(v, at + r * stride, &t, FROM + r * BY);
    }
}

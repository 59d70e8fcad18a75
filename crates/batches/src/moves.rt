// Samples moved between a luma plane and a batch: a horizontal edge's rows are the batch's, a vertical edge's
// 16 rows of 8 are turned by zips. `zip` serves chroma too.
ghost use Rattle.std.specs.Prelude.{◌≡◌, ◌+◌, ◌-◌, ◌*◌, ◌≤◌, length};
ghost use Rattle.batches.specs.Moves.{copied_row, moved_rows, empty_batch, zipped};

// The two halves of a, one from each in turn.
// Kept: (4) k is the place of a pair: both halves of a are gone over, and b by pairs, which would take an
// adapter of `iter_mut`, after which a proof knows nothing of what was written.
#[tactic(auto, using(laws::proofs::Loop::loops), unfolding(crate::specs::Moves::zipped_halves))]
pub fn zip(a: [u8; 128]) -> [u8; 128]
    ensures { result ≡ zipped a }
{
    let mut b = [0u8; 128];
    for k in 0..64usize {
        b[2 * k] = a[k];
        b[2 * k + 1] = a[64 + k];
    }
    b
}

// n samples of p, from the place `from` on, to t, from the place `to` on. Kept: (4) both places beside the
// slices: two sub-slices would be asked of the caller in their place.
#[tactic(auto, using(crate::proofs::Rulesets::copied))]
fn copy(t: &mut [u8], to: usize, p: &[u8], from: usize, n: usize)
    requires { (to + n ≤ length t.old) × (from + n ≤ length p.now) }
    ensures { t.new ≡ copied_row n to from p.now t.old }
{
    t[to..to + n].copy_from_slice(&p[from..from + n]);
}

// A batch of H rows of N samples of a plane, end to end: 8 of 16 of a horizontal edge, 16 of 8 of a vertical
// one.
// Kept: (4) r is a row's number, in the batch and in the plane. `load` beside `store`: one answers a new
// batch and the other writes in a plane; one function for both would be lent each by a slice, with two places
// and two strides.
#[tactic(auto, using(laws::proofs::Loop::loops))]
pub fn load<const H: usize, const N: usize>(p: &[u8], at: usize, stride: usize) -> [u8; 128]
    requires in_batch { H * N ≤ 128 }
    requires in_plane { at + (H - 1) * stride + N ≤ length p.now }
    ensures { result ≡ moved_rows H N 0 N at stride p.now empty_batch }
{
    let mut t = [0u8; 128];
    for r in 0..H {
        copy(&mut t, r * N, p, at + r * stride, N);
    }
    t
}

// The same rows, back into the plane.
// Kept: (4) r is a row's number, in the batch and in the plane; beside `load`, as it says.
#[tactic(auto, using(laws::proofs::Loop::loops))]
pub fn store<const H: usize, const N: usize>(p: &mut [u8], at: usize, stride: usize, t: [u8; 128])
    requires in_batch { H * N ≤ 128 }
    requires in_plane { at + (H - 1) * stride + N ≤ length p.old }
    ensures { p.new ≡ moved_rows H N at stride 0 N t p.old }
{
    for r in 0..H {
        copy(p, at + r * stride, &t, r * N, N);
    }
}

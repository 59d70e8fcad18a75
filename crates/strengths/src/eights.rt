// Which blocks have coefficients. Under an 8x8 transform that is asked of the 8x8 block, so strengths depend
// on the flags of the macroblock and of its left and upper neighbours.
// Kept: (1) an edge by a byte's number k, and an odd row as the number 1: `across_flag` and `coded_by` of
// specs/ have them so. (4) that the flags have the place (`InPicture`) is a fact of two values, by one name.
ghost use Rattle.std.specs.Prelude.{◌≡◌, false, ◌+◌, ◌<◌, IfSome, eqb, length};
ghost use Rattle.sizes.specs.Entries.{flag_at};
ghost use Rattle.sizes.specs.Inner.{InPicture};
ghost use Rattle.strengths.specs.Eights.{transforms_of, across_flag, two_by_two, coded_by, InCounts};
ghost use Rattle.strengths.specs.Inner.{beside};

use sizes::entries::flag_at;
use sizes::places::Place;

// The flag of a neighbour; false where there is none.
fn flag_beside(t8s: &[u8], at: Option<usize>) -> bool
    requires { IfSome at (λ i. eqb (length t8s.now) 0 ≡ false → i < length t8s.now) }
    ensures { result ≡ beside at (flag_at t8s.now) }
{
    at.is_some_and(|i| flag_at(t8s, i))
}

// The flags of a macroblock and of its left and upper neighbours; false where there is none. Kept: (4) no
// generic struct, of which QPs would be another: this one says that it is of flags, and specs/ name its
// members.
#[derive(Clone, Copy, Debug, PartialEq, Eq)]
pub struct Transforms {
    pub own: bool,
    pub left: bool,
    pub above: bool,
}

impl Transforms {
    // Those of a macroblock.
    pub fn at(t8s: &[u8], place: Place) -> Transforms
        requires in_picture { InPicture place.w place.x place.y 36864 }
        requires in_picture_2 { eqb (length t8s.now) 0 ≡ false → InPicture place.w place.x place.y (length t8s.now) }
        ensures { result ≡ transforms_of (flag_at t8s.now) place.w place.x place.y }
    {
        Transforms {
            own: flag_at(t8s, place.address()),
            left: flag_beside(t8s, place.left()),
            above: flag_beside(t8s, place.upper()),
        }
    }

    // The flag of the macroblock before byte k's edge.
    pub fn across(self, k: usize) -> bool
        ensures { result ≡ across_flag self k }
    {
        if k / 4 % 4 != 0 {
            return self.own;
        }
        if k < 16 { self.left } else { self.above }
    }
}

// A count in one of two rows of two, from `at` on.
#[tactic(auto, unfolding(laws::specs::Some::some))]
fn two_by_two(nnz: &[u8], stride: usize, at: usize) -> bool
    requires { at + stride + 1 < length nnz.now }
    ensures { result ≡ two_by_two nnz.now stride at }
{
    let top = (nnz[at] != 0) | (nnz[at + 1] != 0);
    let bottom = (nnz[at + stride] != 0) | (nnz[at + stride + 1] != 0);
    top | bottom
}

// Block i has coefficients: by its own count, or by those of its 8x8 block, whose second row it is in where
// `odd` is 1.
#[tactic(auto, unfolding(crate::specs::Eights::coded_by))]
pub fn coded_by(nnz: &[u8], stride: usize, t8: bool, odd: usize, i: usize) -> bool
    requires { InCounts (length nnz.now) stride t8 odd i }
    ensures { result ≡ coded_by nnz.now stride t8 odd i }
{
    if t8 {
        return two_by_two(nnz, stride, i - i % 2 - odd * stride);
    }
    nnz[i] != 0
}

// Entries of grids that hold one a macroblock.
// Kept: (4) of a test that is given it is asked that it can be called, as of any closure; and that a grid has
// a place (`InPicture`) is a fact of two values, the place and the grid's length, by one name.
ghost use Rattle.std.specs.Prelude.{◌≡◌, false, Bool, ◌<◌, IfSome, eqb, ltb, length};
ghost use Rattle.std.specs.List.{list_any};
ghost use Rattle.sizes.specs.Entries.{flag_at, bad_flag_count, bad_near};
ghost use Rattle.sizes.specs.Inner.{InPicture, Tells, is_at, is_near};

use crate::places::Place;

// The 8x8 flag of macroblock i.
#[tactic(auto, unfolding(crate::specs::Entries::flag_at))]
pub fn flag_at(t8s: &[u8], i: usize) -> bool
    requires { eqb (length t8s.now) 0 ≡ false → i < length t8s.now }
    ensures { result ≡ flag_at t8s.now i }
{
    if t8s.len() == 0 {
        return false;
    }
    t8s[i] != 0
}

// Check 4, of the flags of n macroblocks.
pub fn bad_flag_count(n: usize, t8s: usize) -> bool
    ensures { result ≡ bad_flag_count n t8s }
{
    !((t8s == 0) | (t8s == n))
}

// Whether an entry is bad. All are looked at, which costs less than leaving early.
pub fn any_bad<T: Copy, F: Fn(T) -> bool>(xs: &[T], bad: F) -> bool
    requires { F.IsAlwaysCallable bad }
    ensures { (p : T → Bool) → Tells (F.post bad) p → result ≡ list_any p xs.now }
{
    let mut found = false;
    for x in xs {
        found |= bad(*x);
    }
    found
}

// .. of a neighbour, where there is one.
pub fn bad_before<T: Copy, F: Fn(T) -> bool>(xs: &[T], at: Option<usize>, bad: &F) -> bool
    requires callable { F.IsAlwaysCallable bad.now }
    requires place { IfSome at (λ i. i < length xs.now) }
    ensures { (p : T → Bool) (none : T) → Tells (F.post bad.now) p → result ≡ is_at p none xs.now at }
{
    at.is_some_and(|i| bad(xs[i]))
}

// .. of a macroblock, of its left or of its upper neighbour.
pub fn bad_near<T: Copy, F: Fn(T) -> bool>(xs: &[T], place: Place, bad: &F) -> bool
    requires callable { F.IsAlwaysCallable bad.now }
    requires place { InPicture place.w place.x place.y (length xs.now) }
    ensures { (p : T → Bool) (none : T) → Tells (F.post bad.now) p → result ≡ is_near p none xs.now place.w place.x place.y }
{
    let own = bad(xs[place.address()]);
    let left = bad_before(xs, place.left(), bad);
    let upper = bad_before(xs, place.upper(), bad);
    own | left | upper
}

// The entry of a macroblock, of its left or of its upper neighbour is above `top`.
pub fn over_near(s: &[u8], place: Place, top: u8) -> bool
    requires { InPicture place.w place.x place.y (length s.now) }
    ensures { result ≡ bad_near (ltb top) s.now place.w place.x place.y }
{
    bad_near(s, place, &|v| top < v)
}

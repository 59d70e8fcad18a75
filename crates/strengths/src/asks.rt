// What the four strengths of an edge depend on, by its first byte k.
// Kept: (1) a direction and an edge by a byte's number k: `border`, `skipped` and `ask_edge` of specs/ count
// an edge by its first byte. (4) that a grid reaches the place (`InGrids`) is a fact of two values, by one
// name; what an edge is asked by is named one by one by `ask_edge`; and where x and y are told alone, nothing
// is asked of the picture's width, which a `Place` has.
ghost use Rattle.std.specs.Prelude.{◌≡◌, cond, ◌||◌, ltb, length};
ghost use Rattle.strengths.specs.Edges.{ask_inner, ask_outer, ask_edge, intra_edge};
ghost use Rattle.strengths.specs.Inner.{InGrids};
ghost use Rattle.strengths.specs.Strength.{border, skipped};

use crate::blocks::Blocks;
use crate::kinds::{Asked, MbKind, Mode};

// By the direction of byte k's edge: a where it is vertical, else b.
pub fn by_way(k: usize, a: usize, b: usize) -> usize
    ensures { result ≡ cond (ltb k 16) a b }
{
    if k < 16 { a } else { b }
}

// The picture ends at the edge, or the transform has no edge there.
fn no_edge(t8: bool, x: usize, y: usize, k: usize) -> bool
    ensures { result ≡ (border x y k || skipped t8 k) }
{
    let e = k / 4 % 4;
    ((e == 0) & (by_way(k, x, y) == 0)) | (t8 & (e % 2 == 1))
}

// Of an inner edge: by kind, so that motion is compared only where the kind does not tell.
fn ask_inner(kind: MbKind) -> Asked
    ensures { result ≡ ask_inner kind }
{
    match kind {
        MbKind::Intra => Asked::Same(3),
        MbKind::Skip => Asked::Same(0),
        MbKind::InterUniform => Asked::Coded,
        MbKind::Inter => Asked::Moving,
    }
}

// Of a left edge, or else of an upper one: by whether the macroblocks on both sides are inter.
fn ask_outer(mode: Mode, left: bool, both: bool) -> Asked
    ensures { result ≡ ask_outer mode left both }
{
    if both {
        return Asked::Moving;
    }
    if left {
        Asked::Same(4)
    } else {
        Asked::Same(mode.upper)
    }
}

// Of any edge.
pub fn ask(kind: MbKind, mode: Mode, t8: bool, blocks: Blocks, inter: &[u8], k: usize) -> Asked
    requires { InGrids blocks.place.w blocks.place.x blocks.place.y (length inter.now) }
    ensures { result ≡ ask_edge kind mode t8 inter.now blocks.place.w blocks.place.x blocks.place.y k }
{
    if no_edge(t8, blocks.place.x, blocks.place.y, k) {
        return Asked::Same(0);
    }
    if k / 4 % 4 != 0 {
        return ask_inner(kind);
    }
    let at = blocks.origin();
    let both = (inter[at - by_way(k, 1, blocks.stride())] == 1) & (inter[at] == 1);
    ask_outer(mode, k < 16, both)
}

// Of an intra macroblock: nothing but where it stands.
pub fn intra_edge(mode: Mode, t8: bool, x: usize, y: usize, k: usize) -> u8
    ensures { result ≡ intra_edge mode t8 x y k }
{
    if no_edge(t8, x, y, k) {
        return 0;
    }
    if k / 4 % 4 != 0 {
        return 3;
    }
    if k < 16 { 4 } else { mode.upper }
}

// A quick test of a macroblock's own blocks: it compares stored numbers and asks no table what a reference
// names. Where it passes the blocks have one motion. Kept: (4) that a list holds the blocks (`HoldsOrEmpty`)
// is a fact of list and places, by one name.
ghost use Rattle.std.specs.Prelude.{◌≡◌, ◌&&◌, ◌+◌, ◌*◌, ◌<◌, ◌≤◌, length};
ghost use Rattle.laws.specs.Equal.{eq_z};
ghost use Rattle.motion.specs.Inner.{stored_of, HoldsOrEmpty};
ghost use Rattle.strengths.specs.Inner.{one_stored};

use crate::blocks::Square;
use crate::walks::some_own;
use motion::grids::{Grids, ReferenceList};

// A list stores this reference of block i. Kept: (4) compared by hand, as the vector below: each reads one
// array, where a comparison of what is `stored` of two blocks reads both.
fn has_reference(list: &ReferenceList<'_>, i: usize, reference: i32) -> bool
    requires { i < length list.now.references.now }
    ensures { result ≡ eq_z (stored_of list.now i).reference reference }
{
    i32::from(list.references[i]) == reference
}

// .. this vector.
fn has_vector(list: &ReferenceList<'_>, i: usize, x: i16, y: i16) -> bool
    requires { 2 * i + 2 ≤ length list.now.vectors.now }
    ensures { result ≡ (eq_z (stored_of list.now i).x x && eq_z (stored_of list.now i).y y) }
{
    (list.vectors[2 * i] == x) & (list.vectors[2 * i + 1] == y)
}

// One list holds the same of all 16 blocks. An empty one does. References and vectors, two arrays, are walked
// apart.
fn list_alike(list: &ReferenceList<'_>, square: Square) -> bool
    requires { HoldsOrEmpty list.now (square.at + 3 * square.stride + 4) }
    ensures { result ≡ one_stored list.now.references.now list.now.vectors.now square.at square.stride }
{
    if list.references.is_empty() {
        return true;
    }
    let first = list.stored(square.at);
    let references = some_own(square, &|i: usize| !has_reference(list, i, first.reference));
    let vectors = some_own(square, &|i: usize| !has_vector(list, i, first.x, first.y));
    !(references | vectors)
}

// Both lists do.
pub fn own_alike(g: &Grids<'_>, square: Square) -> bool
    requires list0 { HoldsOrEmpty g.now.list0 (square.at + 3 * square.stride + 4) }
    requires list1 { HoldsOrEmpty g.now.list1 (square.at + 3 * square.stride + 4) }
    ensures { result ≡ (one_stored g.now.list0.references.now g.now.list0.vectors.now square.at square.stride && one_stored g.now.list1.references.now g.now.list1.vectors.now square.at square.stride) }
{
    list_alike(&g.list0, square) & list_alike(&g.list1, square)
}

// Whether the own blocks have one motion: by the stored numbers, else by the pictures that references name.
// Kept: (4) that the grids hold the blocks (`HoldBlocks`) is a fact of grids and places, by one name.
ghost use Rattle.std.specs.Prelude.{◌≡◌, ◌+◌, ◌*◌};
ghost use Rattle.laws.specs.Some.{every};
ghost use Rattle.motion.specs.Grids.{blk_at};
ghost use Rattle.motion.specs.Lent.{grids_of};
ghost use Rattle.motion.specs.Inner.{HoldBlocks};
ghost use Rattle.motion.specs.Motion.{same_motion};

use crate::blocks::Square;
use crate::stored::own_alike;
use crate::walks::some_own;
use motion::grids::Grids;

// By what the references name, block by block.
fn own_same_named(g: &Grids<'_>, square: Square) -> bool
    requires { HoldBlocks (grids_of g.now) (square.at + 3 * square.stride + 4) }
    ensures { result ≡ every 4 (λ j. every 4 (λ k. same_motion (blk_at (grids_of g.now) (square.at + j * square.stride + k)) (blk_at (grids_of g.now) square.at))) }
{
    let first = g.block(square.at);
    !some_own(square, &|i: usize| !g.block(i).has_same_motion(first))
}

// The stored numbers are compared first: where they are one for all blocks, no table need be asked.
pub fn own_same(g: &Grids<'_>, square: Square) -> bool
    requires { HoldBlocks (grids_of g.now) (square.at + 3 * square.stride + 4) }
    ensures { result ≡ every 4 (λ j. every 4 (λ k. same_motion (blk_at (grids_of g.now) (square.at + j * square.stride + k)) (blk_at (grids_of g.now) square.at))) }
{
    own_alike(g, square) || own_same_named(g, square)
}

// The 32 strengths of a macroblock whose grids have been checked, edge by edge.
// Kept: (4) that the grids reach the place, and agree there, are facts of two values, by one name each. A
// struct of both would be made twice a macroblock, in `check_at` and in `derive_at`, and functions that are
// given one grid alone, as `is_coded` and `bad_inter`, would ask for the fact all the same.
ghost use Rattle.std.specs.Prelude.{◌≡◌, true, false, ◌+◌, ◌*◌, ◌<◌, ◌≤◌, length};
ghost use Rattle.motion.specs.Lent.{grids_of};
ghost use Rattle.strengths.specs.ByKind.{strength_by};
ghost use Rattle.strengths.specs.Checks.{disagree};
ghost use Rattle.strengths.specs.Edges.{intra_edge};
ghost use Rattle.strengths.specs.Inner.{GridsReach, filled};
ghost use Rattle.strengths.specs.Kinds.{is_kind};
ghost use Rattle.strengths.specs.Strength.{written};

use crate::asks::{ask, intra_edge};
use crate::blocks::Blocks;
use crate::eights::Transforms;
use crate::fours::{MbEdge, edge_at, fill_four, four_by_motion};
use crate::kinds::{Asked, MbKind, Mode};
use motion::grids::Grids;

// The four bytes of edge j: 0 to 3 are vertical, 4 to 7 horizontal. Kept: (4) here and below the grid with a
// place `to`: by a part of the grid the clause would say by take and drop what it says by `filled`, as
// `written` does; kind, mode, flags and place apart: `strength_by` names each, and so a clause would take a
// struct of them apart; and the match: what is asked is data.
fn derive_edge(
    kind: MbKind,
    mode: Mode,
    t: Transforms,
    blocks: Blocks,
    g: &Grids<'_>,
    j: usize,
    strengths: &mut [u8],
    to: usize,
)
    requires within { GridsReach (grids_of g.now) blocks.place.w blocks.place.x blocks.place.y }
    requires agree { disagree g.now.inter.now blocks.place.w blocks.place.x blocks.place.y ≡ false }
    requires j_bound { j < 8 }
    requires to_in_bounds { to + 4 ≤ length strengths.old }
    ensures { strengths.new ≡ filled 4 to (λ s. strength_by kind mode (grids_of g.now) blocks.place.w t blocks.place.x blocks.place.y (4 * j + s)) strengths.old }
{
    let k = 4 * j;
    match ask(kind, mode, t.own, blocks, g.inter, k) {
        Asked::Same(v) => fill_four(strengths, to, |_s: usize| v),
        Asked::Coded => {
            let way = edge_at(blocks, k);
            let edge = MbEdge { blocks, t, k, way };
            fill_four(strengths, to, |s: usize| edge.by_coefficients(g.nnz, s))
        }
        Asked::Moving => {
            let way = edge_at(blocks, k);
            let edge = MbEdge { blocks, t, k, way };
            four_by_motion(mode.limit, edge, g, strengths, to)
        }
    }
}

// All 32 of an intra macroblock, which depend on where it stands alone. Kept: (4) an edge is asked about by
// its number, which the loop counts; x and y alone, since nothing is asked of the picture's width.
#[tactic(auto, using(laws::proofs::Loop::loops))]
fn derive_intra(mode: Mode, t8: bool, x: usize, y: usize, strengths: &mut [u8], to: usize)
    requires { to + 32 ≤ length strengths.old }
    ensures { strengths.new ≡ filled 32 to (intra_edge mode t8 x y) strengths.old }
{
    for j in 0..8usize {
        let v = intra_edge(mode, t8, x, y, 4 * j);
        fill_four(strengths, to + 4 * j, |_s: usize| v);
    }
}

// Of another macroblock. Kept: (4) an edge is asked about by its number, which the loop counts.
#[tactic(auto, using(laws::proofs::Loop::loops))]
fn derive_inter(
    kind: MbKind,
    mode: Mode,
    t: Transforms,
    blocks: Blocks,
    g: &Grids<'_>,
    strengths: &mut [u8],
    to: usize,
)
    requires within { GridsReach (grids_of g.now) blocks.place.w blocks.place.x blocks.place.y }
    requires agree { disagree g.now.inter.now blocks.place.w blocks.place.x blocks.place.y ≡ false }
    requires to_in_bounds { to + 32 ≤ length strengths.old }
    ensures { strengths.new ≡ filled 32 to (strength_by kind mode (grids_of g.now) blocks.place.w t blocks.place.x blocks.place.y) strengths.old }
{
    for j in 0..8usize {
        derive_edge(kind, mode, t, blocks, g, j, strengths, to + 4 * j);
    }
}

// Of a macroblock whose kind is true.
#[tactic(auto, unfolding(crate::specs::Strength::written))]
pub fn derive(
    kind: MbKind,
    mode: Mode,
    t: Transforms,
    blocks: Blocks,
    g: &Grids<'_>,
    strengths: &mut [u8],
)
    requires within { GridsReach (grids_of g.now) blocks.place.w blocks.place.x blocks.place.y }
    requires agree { disagree g.now.inter.now blocks.place.w blocks.place.x blocks.place.y ≡ false }
    requires kind_value { is_kind (grids_of g.now) blocks.place.w blocks.place.x blocks.place.y kind ≡ true }
    requires room { 32 * (blocks.place.y * blocks.place.w + blocks.place.x) + 32 ≤ length strengths.old }
    ensures { strengths.new ≡ written (blocks.place.y * blocks.place.w + blocks.place.x) (strength_by kind mode (grids_of g.now) blocks.place.w t blocks.place.x blocks.place.y) strengths.old }
{
    let to = 32 * blocks.place.address();
    if kind.is_intra() {
        return derive_intra(mode, t.own, blocks.place.x, blocks.place.y, strengths, to);
    }
    derive_inter(kind, mode, t, blocks, g, strengths, to)
}

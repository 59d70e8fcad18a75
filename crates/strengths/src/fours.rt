// The four strengths of an edge, by what they depend on. s counts its segments.
// Kept: (4) that the grids reach the place, and agree there, are facts of two values, by one name each. A
// struct of both would be made twice a macroblock, in `check_at` and in `derive_at`, and functions that are
// given one grid alone, as `is_coded` and `bad_inter`, would ask for the fact all the same. (4) that s is
// below 4 is a fact of one number, which `fill_four` asks of no caller: its closures are told it, and a type
// for it would be made for each segment. (1) an edge by its first byte k, its direction as `down` and an odd
// row as the number 1: `edge_at`, `q_block` and `coded_by` of specs/ have them so.
ghost use Rattle.std.specs.Prelude.{◌≡◌, ℕ, cond, ◌||◌, ◌+◌, ◌*◌, ◌%◌, ◌<◌, ◌≤◌, length};
ghost use Rattle.motion.specs.Lent.{grids_of};
ghost use Rattle.strengths.specs.Blocks.{own_block};
ghost use Rattle.strengths.specs.ByKind.{either_coded};
ghost use Rattle.strengths.specs.Edges.{edge_at, IsEdge, moving_by, lone_by};
ghost use Rattle.strengths.specs.Eights.{across_flag};
ghost use Rattle.strengths.specs.Inner.{InGrids, GridsReach, filled};
ghost use Rattle.strengths.specs.Strength.{p_block, q_block};

use crate::asks::by_way;
use crate::blocks::Blocks;
use crate::eights::{Transforms, coded_by};
use motion::blocks::bs_inter;
use motion::grids::{Grids, ReferenceList};

// Where an edge lies: the block after its first segment, the steps from there back to the block across and
// along to the next segment's, and which edge it is: vertical or not, and how many blocks from the border.
#[derive(Clone, Copy, Debug, PartialEq, Eq)]
pub struct Edge {
    pub q: usize,
    pub back: usize,
    pub along: usize,
    pub down: bool,
    pub from: usize,
}

// That of the edge which begins with byte k.
pub fn edge_at(blocks: Blocks, k: usize) -> Edge
    requires { (k % 4 ≡ 0) × (k < 32) }
    ensures { result ≡ edge_at blocks.place.w blocks.place.x blocks.place.y k }
{
    let from = k / 4 % 4;
    let back = by_way(k, 1, blocks.stride());
    Edge {
        q: blocks.origin() + from * back,
        back,
        along: by_way(k, blocks.stride(), 1),
        down: k < 16,
        from,
    }
}

// 1 where a block's row is odd: of a vertical edge that is the segment's, else it stands so far from the
// border.
fn odd_row(down: bool, s: usize, from: usize) -> usize
    ensures { result ≡ cond down s from % 2 }
{
    if down { s % 2 } else { from % 2 }
}

// The edge of a macroblock that begins with byte k and has blocks on both sides, with the flags of theirs.
#[derive(Clone, Copy, Debug, PartialEq, Eq)]
pub struct MbEdge {
    pub blocks: Blocks,
    pub t: Transforms,
    pub k: usize,
    pub way: Edge,
    pub ghost is_edge: { IsEdge blocks.place.w blocks.place.x blocks.place.y k way },
}

impl MbEdge {
    // The block after a segment.
    fn q(self, s: usize) -> usize
        requires { s < 4 }
        ensures is { result ≡ q_block self.blocks.place.w self.blocks.place.x self.blocks.place.y (self.k + s) }
        ensures last { result ≤ own_block self.blocks.place.w self.blocks.place.x self.blocks.place.y 3 3 }
    {
        self.way.q + s * self.way.along
    }

    // The block across.
    fn p(self, s: usize) -> usize
        requires { s < 4 }
        ensures is { result ≡ p_block self.blocks.place.w self.blocks.place.x self.blocks.place.y (self.k + s) }
        ensures last { result ≤ own_block self.blocks.place.w self.blocks.place.x self.blocks.place.y 3 3 }
    {
        self.way.q + s * self.way.along - self.way.back
    }

    // Whether a macroblock beside the edge has an 8x8 transform.
    fn has_eights(self) -> bool
        ensures { result ≡ (across_flag self.t self.k || self.t.own) }
    {
        self.t.across(self.k) | self.t.own
    }

    // A block beside a segment has coefficients. Where neither macroblock is 8x8 their own counts tell. Of a
    // row it matters whether it is odd, and one up from a row is as one down.
    fn is_coded(self, nnz: &[u8], s: usize) -> bool
        requires counts { InGrids self.blocks.place.w self.blocks.place.x self.blocks.place.y (length nnz.now) }
        requires segment { s < 4 }
        ensures { result ≡ either_coded nnz.now self.blocks.place.w self.t self.blocks.place.x self.blocks.place.y (self.k + s) }
    {
        let p = self.p(s);
        let q = self.q(s);
        let own = self.t.own;
        let across = self.t.across(self.k);
        if !(across | own) {
            return (nnz[p] != 0) | (nnz[q] != 0);
        }
        let stride = self.blocks.stride();
        let way = self.way;
        let before = coded_by(nnz, stride, across, odd_row(way.down, s, way.from + 1), p);
        let after = coded_by(nnz, stride, own, odd_row(way.down, s, way.from), q);
        before | after
    }

    // A segment's strength, by coefficients alone,
    pub fn by_coefficients(self, nnz: &[u8], s: usize) -> u8
        requires counts { InGrids self.blocks.place.w self.blocks.place.x self.blocks.place.y (length nnz.now) }
        requires segment { s < 4 }
        ensures { result ≡ cond (either_coded nnz.now self.blocks.place.w self.t self.blocks.place.x self.blocks.place.y (self.k + s)) 2 0 }
    {
        2 * u8::from(self.is_coded(nnz, s))
    }

    // .. by motion in one list without a table, as most pictures have it,
    fn by_one_list(self, limit: u8, nnz: &[u8], list: &ReferenceList<'_>, s: usize) -> u8
        requires counts { InGrids self.blocks.place.w self.blocks.place.x self.blocks.place.y (length nnz.now) }
        requires in_list { (own_block self.blocks.place.w self.blocks.place.x self.blocks.place.y 3 3 < length list.now.references.now) × (2 * own_block self.blocks.place.w self.blocks.place.x self.blocks.place.y 3 3 + 2 ≤ length list.now.vectors.now) }
        requires segment { s < 4 }
        ensures { result ≡ lone_by limit nnz.now list.now.references.now list.now.vectors.now self.blocks.place.w self.t self.blocks.place.x self.blocks.place.y (self.k + s) }
    {
        list.bs_lone(limit, self.is_coded(nnz, s), self.p(s), self.q(s))
    }

    // .. in two without tables. Here and below coefficients are asked for first, so that where there are any
    // no block is read.
    #[tactic(auto, unfolding(motion::specs::Motion::inter_strength))]
    fn by_two_lists(self, limit: u8, g: &Grids<'_>, s: usize) -> u8
        requires within { GridsReach (grids_of g.now) self.blocks.place.w self.blocks.place.x self.blocks.place.y }
        requires second { 0 < length g.now.list1.references.now }
        requires no_tables { (length g.now.list0.pictures.now ≡ 0) × (length g.now.list1.pictures.now ≡ 0) }
        requires segment { s < 4 }
        ensures { result ≡ moving_by limit (grids_of g.now) self.blocks.place.w self.t self.blocks.place.x self.blocks.place.y (self.k + s) }
    {
        if self.is_coded(g.nnz, s) {
            return 2;
        }
        bs_inter(
            limit,
            false,
            g.stored_block(self.p(s)),
            g.stored_block(self.q(s)),
        )
    }

    // .. in two with tables. Kept: (4) the three apart: of a closure that reads a block they would state when
    // it may be called and what it answers.
    #[tactic(auto, unfolding(motion::specs::Motion::inter_strength))]
    fn by_two_tables(self, limit: u8, g: &Grids<'_>, s: usize) -> u8
        requires within { GridsReach (grids_of g.now) self.blocks.place.w self.blocks.place.x self.blocks.place.y }
        requires second { 0 < length g.now.list1.references.now }
        requires tables { (0 < length g.now.list0.pictures.now) × (0 < length g.now.list1.pictures.now) }
        requires segment { s < 4 }
        ensures { result ≡ moving_by limit (grids_of g.now) self.blocks.place.w self.t self.blocks.place.x self.blocks.place.y (self.k + s) }
    {
        if self.is_coded(g.nnz, s) {
            return 2;
        }
        bs_inter(
            limit,
            false,
            g.named_block(self.p(s)),
            g.named_block(self.q(s)),
        )
    }

    // .. in any.
    #[tactic(auto, unfolding(motion::specs::Motion::inter_strength))]
    fn by_motion(self, limit: u8, g: &Grids<'_>, s: usize) -> u8
        requires within { GridsReach (grids_of g.now) self.blocks.place.w self.blocks.place.x self.blocks.place.y }
        requires segment { s < 4 }
        ensures { result ≡ moving_by limit (grids_of g.now) self.blocks.place.w self.t self.blocks.place.x self.blocks.place.y (self.k + s) }
    {
        if self.is_coded(g.nnz, s) {
            return 2;
        }
        bs_inter(limit, false, g.block(self.p(s)), g.block(self.q(s)))
    }
}

// Writes four values from `to` on. They are gathered first: what is read for them would have to be read again
// after each write. Kept: (4) s is a segment's number, which the closure is asked about; and `filled` says
// four single writes, where by `copy_from_slice` (tried) a law between both would be owed.
pub fn fill_four<F: Fn(usize) -> u8>(strengths: &mut [u8], to: usize, value: F)
    requires room { to + 4 ≤ length strengths.old }
    requires asked { (s : ℕ) → s < 4 → F.pre value s }
    ensures { (f : ℕ → ℕ) → ((s n : ℕ) → s < 4 → F.post value s n → n ≡ f s) → strengths.new ≡ filled 4 to f strengths.old }
{
    let mut four = [0; 4];
    for s in 0..4usize {
        four[s] = value(s);
    }
    for k in 0..4usize {
        strengths[to + k] = four[k];
    }
}

// By motion. Which lists, tables and 8x8 transforms there are is asked here to choose a way for the four: two
// lists take less where no block asks. One list with a table, and two beside an 8x8 transform, go by
// `by_motion`, which asks at each block.
pub fn four_by_motion(limit: u8, edge: MbEdge, g: &Grids<'_>, strengths: &mut [u8], to: usize)
    requires within { GridsReach (grids_of g.now) edge.blocks.place.w edge.blocks.place.x edge.blocks.place.y }
    requires room { to + 4 ≤ length strengths.old }
    ensures { strengths.new ≡ filled 4 to (λ s. moving_by limit (grids_of g.now) edge.blocks.place.w edge.t edge.blocks.place.x edge.blocks.place.y (edge.k + s)) strengths.old }
{
    let two_lists = !g.list1.references.is_empty();
    let table0 = !g.list0.pictures.is_empty();
    let table1 = !g.list1.pictures.is_empty();
    let eights = edge.has_eights();
    if !two_lists & !table0 {
        fill_four(strengths, to, |s: usize| {
            edge.by_one_list(limit, g.nnz, &g.list0, s)
        });
    } else if two_lists & !table0 & !table1 & !eights {
        fill_four(strengths, to, |s: usize| edge.by_two_lists(limit, g, s));
    } else if two_lists & table0 & table1 & !eights {
        fill_four(strengths, to, |s: usize| edge.by_two_tables(limit, g, s));
    } else {
        fill_four(strengths, to, |s: usize| edge.by_motion(limit, g, s));
    }
}

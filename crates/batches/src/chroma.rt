// The chroma lines of two edges of both planes: loaded into a batch, filtered there, stored; or of one edge
// of one plane, one by one. The second edge is four samples after the first, so that the two share none.
// Kept: (1) a step of 1 tells a vertical edge: `taken_both` and `stored` of specs/ tell it by that, and a
// flag beside it could say otherwise. That tC0 is in the tables is asked: `as_thresholds` of specs/ makes a
// `Thresholds` of any index. (4) That the lines lie in the plane: a fact of two values, plane and lines. u
// and v apart: of a struct of two `&mut` each function would have to say too that they are still the planes
// that were lent. `take` and `store` beside luma's: a batch holds two edges of both planes here, there
// one of one plane, and is loaded and stored by other functions.
ghost use Rattle.std.specs.Prelude.{◌≡◌, ◌+◌, ◌-◌, ◌*◌, ◌<◌, true, ◌&&◌, length};
ghost use Rattle.laws.specs.Loop.{up_to};
ghost use Rattle.lines.specs.Depth.{eight};
ghost use Rattle.lines.specs.Tables.{tc0_at};
ghost use Rattle.batches.specs.Lanes.{is_weak, still_edge};
ghost use Rattle.batches.specs.Lines.{InTable, InTables, Straight, upper, lower, short_at, short_lines};
ghost use Rattle.batches.specs.Moves.{taken_both, stored};

use crate::chroma_passes::edge;
use crate::lanes::{Both, Single, is_still};
use crate::moves::zip;
use crate::moves_both::{load_cols, load_rows, store_both};
use crate::places::Lines;
use lines::planes::filter_chroma_line;
use lines::tables::tc0_at;

// The batch of two edges of both planes.
#[tactic(auto, unfolding(crate::specs::Moves::taken_both))]
fn take(u: &[u8], v: &[u8], l: Lines) -> [u8; 128]
    requires inside { (l.at + 7 * l.along + 7 * l.step < length u.now) × (l.at + 7 * l.along + 7 * l.step < length v.now) }
    requires straight { Straight 8 l.along l.step }
    ensures { result ≡ taken_both l.at l.along l.step u.now v.now }
{
    if l.step == 1 {
        return zip(zip(zip(zip(load_cols(u, v, l.at, l.along)))));
    }
    load_rows(u, v, l.at, l.step)
}

// Both planes with their columns of the batch t stored.
#[tactic(auto, unfolding(crate::specs::Moves::stored))]
fn store(u: &mut [u8], v: &mut [u8], l: Lines, t: [u8; 128])
    requires inside { (l.at + 7 * l.along + 7 * l.step < length u.old) × (l.at + 7 * l.along + 7 * l.step < length v.old) }
    requires straight { Straight 8 l.along l.step }
    ensures u_after { u.new ≡ stored 0 8 l.at l.along l.step t u.old }
    ensures v_after { v.new ≡ stored 8 8 l.at l.along l.step t v.old }
{
    if l.step == 1 {
        store_both::<64, 8>(u, v, l.at, l.along, zip(zip(zip(t))));
        return;
    }
    store_both::<8, 16>(u, v, l.at, l.step, t);
}

// tC0 of a strength from 1 to 3, at an index of the tables; that of another is not used.
fn tc0(index: usize, bs: u8) -> u8
    requires index_bound { index < 52 }
    ensures { is_weak bs ≡ true → result ≡ tc0_at index (bs - 1) }
{
    match bs {
        0 | 1 => tc0_at(index, 0),
        2 => tc0_at(index, 1),
        _ => tc0_at(index, 2),
    }
}

// The lines of one edge of one plane one after the other, each at the strength of its segment: where no
// second edge is in reach, as at the picture's border. Kept: (4) k is a line's number: its strength and its
// place are by it.
#[tactic(auto, using(crate::proofs::Rulesets::chroma_turns), unfolding(crate::specs::Lines::short_lines))]
pub fn chroma_lines(plane: &mut [u8], lines: Lines, e: Single)
    requires in_table { InTable e }
    requires inside { lines.at + 7 * lines.along + 3 * lines.step < length plane.old }
    ensures { plane.new ≡ short_lines eight e.s e.by lines.at lines.along lines.step plane.old }
{
    if is_still(e.s, e.by) {
        return;
    }
    let l = e.by;
    let bs = [e.s.a, e.s.b, e.s.c, e.s.d];
    for k in 0..8usize {
        let b = bs[k / 2];
        let tc = tc0(l.index, b);
        let at = lines.at + k * lines.along;
        filter_chroma_line(plane, at, lines.step, b, l.alpha, l.beta, tc);
    }
}

// No line of the edge can change, in either plane.
fn both_still(e: Both) -> bool
    ensures { result ≡ (still_edge e.s e.u && still_edge e.s e.v) }
{
    is_still(e.s, e.u) & is_still(e.s, e.v)
}

// Each line of the batch at its own strength.
fn chroma_batch(t: [u8; 128], first: Both, second: Both) -> [u8; 128]
    requires { InTables first × InTables second }
    ensures { result ≡ up_to 16 (short_at eight lower second.s second.u second.v) (up_to 16 (short_at eight upper first.s first.u first.v) t) }
{
    edge::<4>(edge::<0>(t, first), second)
}

// In each plane the lines of the first edge one after the other, then those of the second, each at the
// strength of its segment. Where none can change, no sample is read.
#[tactic(auto, using(crate::proofs::Rulesets::pair_lines))]
pub fn chroma_pair(u: &mut [u8], v: &mut [u8], lines: Lines, first: Both, second: Both)
    requires in_tables { InTables first × InTables second }
    requires inside { (lines.at + 7 * lines.along + 7 * lines.step < length u.old) × (lines.at + 7 * lines.along + 7 * lines.step < length v.old) }
    requires straight { Straight 8 lines.along lines.step }
    ensures u_after { u.new ≡ short_lines eight second.s second.u (lines.at + 4 * lines.step) lines.along lines.step (short_lines eight first.s first.u lines.at lines.along lines.step u.old) }
    ensures v_after { v.new ≡ short_lines eight second.s second.v (lines.at + 4 * lines.step) lines.along lines.step (short_lines eight first.s first.v lines.at lines.along lines.step v.old) }
{
    if both_still(first) & both_still(second) {
        return;
    }
    let t = take(u, v, lines);
    let r = chroma_batch(t, first, second);
    store(u, v, lines, r);
}

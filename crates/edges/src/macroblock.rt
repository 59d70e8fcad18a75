// One macroblock: its vertical edges, then its horizontal ones, by its 32 strengths. `strengths` begins with
// those of the first edge that a function filters.
// Kept: (1) that it has as many as are read is asked: `&[u8; 32]` would ask more of who calls `luma_plane`
// and `chroma_planes`. (4) That the macroblock, and the lines, lie in the plane: facts of two values. u and v
// apart: of a struct of two `&mut` each function would have to say too that they are still the planes that
// were lent.
ghost use Rattle.std.specs.Prelude.{◌≡◌, ◌+◌, ◌-◌, ◌*◌, ◌<◌, ◌≤◌, true, length};
ghost use Rattle.lines.specs.Depth.{eight};
ghost use Rattle.batches.specs.Lines.{Straight};
ghost use Rattle.edges.specs.Edge.{luma_edge, chroma_edge};
ghost use Rattle.edges.specs.Levels.{luma_level, chroma_level, luma_by, chroma_by};
ghost use Rattle.edges.specs.Macroblock.{after, luma_on, outer_or, luma_way, chroma_way};
ghost use Rattle.edges.specs.Inner.{InPlane, all_zero};
ghost use Rattle.edges.specs.Picture.{entries};

use crate::edge::{chroma_edge, chroma_edges, luma_edge};
use crate::levels::{ChromaLevels, ChromaWay, PlaneLevels, WayLevels};
use crate::plan::{Switches, WaySwitches, Window};
use batches::places::Lines;

// The luma edges of one direction. `q` has the lines of its border from their q0 on; those of an edge begin
// four samples before it. It is inlined at both calls: called, it took its structs through memory, and
// macroblocks took up to a tenth longer.
#[inline(always)]
#[tactic(auto, using(crate::proofs::Rulesets::luma_ways))]
fn luma_way(plane: &mut [u8], on: WaySwitches, q: Lines, strengths: &[u8], by: WayLevels)
    requires inside { (on.border ≡ true → 4 * q.step ≤ q.at) × (q.at + 15 * q.along + 15 * q.step < length plane.old) × (16 ≤ length strengths.now) }
    requires straight { Straight 16 q.along q.step }
    ensures { plane.new ≡ luma_way (luma_level eight by.border) (luma_level eight by.inside) (luma_on on.border on.inner on.t8) (entries strengths.now) q.at q.along q.step plane.old }
{
    let odd = on.inner & !on.t8;
    if on.border {
        luma_edge(plane, q.back(4), strengths, by.border);
    }
    if odd {
        luma_edge(plane, q, &strengths[4..], by.inside);
    }
    if on.inner {
        luma_edge(plane, q.ahead(4), &strengths[8..], by.inside);
    }
    if odd {
        luma_edge(plane, q.ahead(8), &strengths[12..], by.inside);
    }
}

// The chroma edges of one direction in both planes, with the strengths of luma's edges 0 and 2. Where both
// are on they are filtered at once. The lines of an edge begin two samples before it.
#[tactic(auto, using(crate::proofs::Rulesets::chroma_ways))]
fn chroma_way(
    u: &mut [u8],
    v: &mut [u8],
    on: WaySwitches,
    q: Lines,
    strengths: &[u8],
    by: ChromaWay,
)
    requires inside { (on.border ≡ true → 2 * q.step ≤ q.at) × (q.at + 7 * q.along + 7 * q.step < length u.old) × (q.at + 7 * q.along + 7 * q.step < length v.old) × (16 ≤ length strengths.now) }
    requires straight { Straight 8 q.along q.step }
    ensures u_after { u.new ≡ chroma_way (chroma_level eight by.u.border) (chroma_level eight by.u.inside) (outer_or on.border on.inner) (entries strengths.now) q.at q.along q.step u.old }
    ensures v_after { v.new ≡ chroma_way (chroma_level eight by.v.border) (chroma_level eight by.v.inside) (outer_or on.border on.inner) (entries strengths.now) q.at q.along q.step v.old }
{
    if on.border & on.inner {
        chroma_edges(u, v, q.back(2), strengths, by);
        return;
    }
    if on.border {
        let border = q.back(2);
        chroma_edge(u, border, strengths, by.u.border);
        chroma_edge(v, border, strengths, by.v.border);
    }
    if on.inner {
        let inside = q.ahead(2);
        chroma_edge(u, inside, &strengths[8..], by.u.inside);
        chroma_edge(v, inside, &strengths[8..], by.v.inside);
    }
}

// All luma edges.
pub fn luma_plane(plane: &mut [u8], on: Switches, at: Window, strengths: &[u8], m: PlaneLevels)
    requires { InPlane 16 4 on at (length plane.old) × (32 ≤ length strengths.now) }
    ensures { plane.new ≡ luma_by eight (entries strengths.now) on at m plane.old }
{
    luma_way(plane, on.vertical(), at.vertical(), strengths, m.vertical());
    luma_way(
        plane,
        on.horizontal(),
        at.horizontal(),
        &strengths[16..],
        m.horizontal(),
    );
}

// All edges of both chroma planes.
pub fn chroma_planes(
    u: &mut [u8],
    v: &mut [u8],
    on: Switches,
    at: Window,
    strengths: &[u8],
    m: ChromaLevels,
)
    requires { InPlane 8 2 on at (length u.old) × InPlane 8 2 on at (length v.old) × (32 ≤ length strengths.now) }
    ensures u_after { u.new ≡ chroma_by eight (entries strengths.now) on at m.u u.old }
    ensures v_after { v.new ≡ chroma_by eight (entries strengths.now) on at m.v v.old }
{
    chroma_way(u, v, on.vertical(), at.vertical(), strengths, m.vertical());
    chroma_way(
        u,
        v,
        on.horizontal(),
        at.horizontal(),
        &strengths[16..],
        m.horizontal(),
    );
}

// All 32 strengths are 0. Kept: (4) by their place: of a slice from there on a caller would have to prove
// what its strengths are, by `after-rest`, as `filter_edges` does of the slice that it cuts. And a loop
// beside `any_bad` of `sizes`, which speaks of a list: `all_zero` of specs/ speaks of a sequence, so that a
// lemma between the two would stand in place of an invariant of one line.
#[tactic(auto, using(crate::proofs::Rulesets::zeros), unfolding(crate::specs::Inner::all_zero))]
pub fn all_zero(strengths: &[u8], base: usize) -> bool
    requires { base + 32 ≤ length strengths.now }
    ensures { result ≡ all_zero (after base (entries strengths.now)) }
{
    let mut all = true;
    for s in &strengths[base..base + 32] {
        all &= *s == 0;
    }
    all
}

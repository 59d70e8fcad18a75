// The sixteen luma lines of an edge: loaded into a batch, filtered there, stored.
// Kept: (1) a step of 1 tells a vertical edge: `taken` and `stored` of specs/ tell it by that, and a flag
// beside it could say otherwise. That tC0 is in the tables is asked by its name, `InTable`: `as_thresholds`
// of specs/ makes a `Thresholds` of any index. (4) That the lines lie in the plane: a fact of two values,
// plane and lines. `take` and `store` beside chroma's: a batch holds one edge of one plane here, there two
// of both, and is loaded and stored by other functions.
ghost use Rattle.std.specs.Prelude.{◌≡◌, ◌+◌, ◌*◌, ◌<◌, length};
ghost use Rattle.lines.specs.Depth.{eight};
ghost use Rattle.batches.specs.Lines.{InTable, Straight, long_lines};
ghost use Rattle.batches.specs.Moves.{taken, stored};

use crate::lanes::{Single, is_still};
use crate::luma_passes::luma_batch;
use crate::moves;
use crate::moves::{load, zip};
use crate::places::Lines;

// The batch of an edge.
#[tactic(auto, unfolding(crate::specs::Moves::taken))]
fn take(p: &[u8], l: Lines) -> [u8; 128]
    requires inside { l.at + 15 * l.along + 7 * l.step < length p.now }
    requires straight { Straight 16 l.along l.step }
    ensures { result ≡ taken l.at l.along l.step p.now }
{
    if l.step == 1 {
        return zip(zip(zip(zip(load::<16, 8>(p, l.at, l.along)))));
    }
    load::<8, 16>(p, l.at, l.step)
}

// The plane with the batch t stored.
#[tactic(auto, unfolding(crate::specs::Moves::stored))]
fn store(p: &mut [u8], l: Lines, t: [u8; 128])
    requires inside { l.at + 15 * l.along + 7 * l.step < length p.old }
    requires straight { Straight 16 l.along l.step }
    ensures { p.new ≡ stored 0 16 l.at l.along l.step t p.old }
{
    if l.step == 1 {
        moves::store::<16, 8>(p, l.at, l.along, zip(zip(zip(t))));
        return;
    }
    moves::store::<8, 16>(p, l.at, l.step, t);
}

// The lines one after the other, each at the strength of its segment. Where none can change, no sample is
// read.
#[tactic(auto, using(crate::proofs::Rulesets::edge_lines))]
pub fn luma_lines(plane: &mut [u8], lines: Lines, e: Single)
    requires in_table { InTable e }
    requires inside { lines.at + 15 * lines.along + 7 * lines.step < length plane.old }
    requires straight { Straight 16 lines.along lines.step }
    ensures { plane.new ≡ long_lines eight e.s e.by lines.at lines.along lines.step plane.old }
{
    if is_still(e.s, e.by) {
        return;
    }
    let t = take(plane, lines);
    let r = luma_batch(t, e);
    store(plane, lines, r);
}

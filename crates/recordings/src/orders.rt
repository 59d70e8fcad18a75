// A recording filtered anew: each picture of it as a whole, and by visits in three orders with refused ones
// among them, those of two fields mixed. A verdict is true exactly where the planes that were made are the
// recorded ones (`Judged` of specs/Orders).
// Kept: (1) a way as an enum, as in ways.rt, which `filtered` and `Becomes` ask whether it is the whole
// picture; (4) turns by their number, as `visits_to` counts them: no slice is gone over.
ghost use Rattle.std.specs.Prelude.{◌≡◌, true, ◌↔◌, cond, ◌≤◌};
ghost use Rattle.edges.specs.LentPlanes.{samples};
ghost use Rattle.recordings.specs.Bytes.{copied, ones};
ghost use Rattle.recordings.specs.Orders.{visits_to, visited_all, filtered, second_of, ComesOut, Judged};
ghost use Rattle.recordings.specs.Tried.{recording, tried, shown, SameTried};
ghost use Rattle.recordings.specs.Ways.{turns_of};

use crate::both::{Recorded, Tried, frames, most, turn_of_both, whole_of_both};
use crate::space::zeros;
use crate::ways::{Way, turns};
use edges::Planes;

// Planes that are only looked at. Kept: (4) beside `Planes` of edges, which are lent to be changed.
#[derive(Clone, Copy, Debug, PartialEq, Eq)]
pub struct Shown<'a> {
    pub luma: &'a [u8],
    pub u: &'a [u8],
    pub v: &'a [u8],
}

// Tries all macroblocks again and again, so that each has a turn after those that it waits for.
#[tactic(auto, using(laws::proofs::Loop::loops))]
fn visits_in(way: Way, recorded: &Recorded<'_>, now: &mut Tried<'_>)
    ensures same { SameTried now.old now.new }
    ensures is { tried now.new ≡ visits_to (turns_of recorded.now.n) way (recording recorded.now) (tried now.old) }
{
    for k in 0..turns(recorded.n) {
        turn_of_both(way, k, recorded, now);
    }
}

fn filter(way: Way, recorded: &Recorded<'_>, now: &mut Tried<'_>)
    ensures same { SameTried now.old now.new }
    ensures is { tried now.new ≡ filtered way (recording recorded.now) (tried now.old) }
{
    if way.is_whole() {
        whole_of_both(recorded, &mut now.planes);
        return;
    }
    visits_in(way, recorded, now);
}

fn copy(to: &mut [u8], from: &[u8])
    ensures { to.new ≡ copied to.old from.now }
{
    if to.len() == from.len() {
        to.copy_from_slice(from);
    }
}

fn all_ones(marks: &[u8]) -> bool
    ensures { result ≡ ones marks.now }
{
    marks.iter().all(|mark| *mark == 1)
}

// Whether each macroblock of each picture was visited.
fn is_visited(now: &Tried<'_>) -> bool
    ensures { result ≡ visited_all now.now.first.now now.now.second.now }
{
    all_ones(now.first) && all_ones(now.second)
}

fn are_same(planes: &Planes<'_>, after: Shown<'_>) -> bool
    ensures { (result ≡ true) ↔ (samples planes.now ≡ shown after.entry) }
{
    let luma = check::same(planes.luma, after.luma);
    let u = check::same(planes.u, after.u);
    let v = check::same(planes.v, after.v);
    luma & u & v
}

// The macroblocks of a second picture. Kept: (1) a flag, as `second_of` takes it.
fn second(two: bool, n: usize) -> usize
    ensures upper_bound { result ≤ n }
    ensures value { result ≡ second_of two n }
{
    if two { n } else { 0 }
}

// Whether planes of this function's own, filled with those before, become those after. Kept: (1) fixed space,
// of which a part is lent: the verdict is true exactly where `ComesOut` holds, and where a `Vec` could not be
// had there would be none.
fn holds(way: Way, recorded: &Recorded<'_>, before: Shown<'_>, after: Shown<'_>) -> bool
    ensures { (result ≡ true) ↔ ComesOut way (recording recorded.now) (shown before.entry) (shown after.entry) }
{
    let n = recorded.n;
    let two = recorded.second.is_some();
    if most(two) < n {
        return false;
    }
    let m = frames(two, n);
    let n2 = second(two, n);
    let ky = 256 * m;
    let kc = 64 * m;
    let luma = &mut zeros::<30720>()[..ky];
    let u = &mut zeros::<7680>()[..kc];
    let v = &mut zeros::<7680>()[..kc];
    let first = &mut zeros::<120>()[..n];
    let other = &mut zeros::<120>()[..n2];
    copy(luma, before.luma);
    copy(u, before.u);
    copy(v, before.v);
    let mut now = Tried {
        planes: Planes { luma, u, v },
        first,
        second: other,
    };
    filter(way, recorded, &mut now);
    let visited = way.is_whole() | is_visited(&now);
    visited & are_same(&now.planes, after)
}

// Whether a recording came out as recorded, in each way.
#[derive(Clone, Copy, Debug, PartialEq, Eq)]
pub struct Verdicts {
    pub whole: bool,
    pub raster: bool,
    pub reverse: bool,
    pub leaps: bool,
}

pub fn all(recorded: &Recorded<'_>, before: Shown<'_>, after: Shown<'_>) -> Verdicts
    ensures { Judged (recording recorded.now) (shown before.entry) (shown after.entry) result }
{
    Verdicts {
        whole: holds(Way::Whole, recorded, before, after),
        raster: holds(Way::Raster, recorded, before, after),
        reverse: holds(Way::Reverse, recorded, before, after),
        leaps: holds(Way::Leaps, recorded, before, after),
    }
}

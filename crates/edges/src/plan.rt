// What a macroblock is filtered with, by value. One function computes all of it, before a sample is touched:
// which edges are filtered, where the macroblock lies, by which levels.
// Kept: (4) `vertical` beside `horizontal`: one function that is told the direction would be a switch. No
// struct is generic over what levels.rt has of levels: `Switches` and `WaySwitches` are a macroblock's, have
// t8 too, cannot be passed for a slice's (`EdgesOn`), and `plan_of` and `InPlane` of specs/ name their
// members. (1) That x is below w is asked: a call is told places outside its picture and refuses them, so
// that `Place` holds any. And so is that the parity is a field's, as `Part` says.
ghost use Rattle.std.specs.Prelude.{◌≡◌, false, ◌&&◌, ℕ, ◌+◌, ◌*◌, ◌<◌, ◌≤◌, eqb, ltb, pos, length};
ghost use Rattle.lines.specs.Depth.{eight};
ghost use Rattle.sizes.specs.Sizes.{bad_parity, frame_of_part};
ghost use Rattle.edges.specs.Alike.{held_as};
ghost use Rattle.edges.specs.Inner.{SmallWindow};
ghost use Rattle.edges.specs.Laid.{layout_of, window_of};
ghost use Rattle.edges.specs.Levels.{levels_of, plan_of};
ghost use Rattle.edges.specs.Picture.{entries, before_of};

use crate::levels::{Levels, Qps, of_planes};
use crate::{EdgesOn, MbGrids, Offsets, Settings};
use batches::places::Lines;
use sizes::Part;
use sizes::entries::flag_at;
use sizes::places::Place;

// Which edges are filtered; with the 8x8 transform no luma edges 1 and 3.
#[derive(Clone, Copy, Debug, PartialEq, Eq)]
pub struct Switches {
    pub left: bool,
    pub top: bool,
    pub inner: bool,
    pub t8: bool,
}

// .. of the edges of one direction: its border and those inside.
#[derive(Clone, Copy, Debug, PartialEq, Eq)]
pub struct WaySwitches {
    pub border: bool,
    pub inner: bool,
    pub t8: bool,
}

impl Switches {
    // Of its vertical edges, and of its horizontal ones.
    pub fn vertical(self) -> WaySwitches
        ensures { result ≡ record { border = self.left; inner = self.inner; t8 = self.t8 } }
    {
        WaySwitches {
            border: self.left,
            inner: self.inner,
            t8: self.t8,
        }
    }

    pub fn horizontal(self) -> WaySwitches
        ensures { result ≡ record { border = self.top; inner = self.inner; t8 = self.t8 } }
    {
        WaySwitches {
            border: self.top,
            inner: self.inner,
            t8: self.t8,
        }
    }
}

// Where a macroblock lies in a plane: the place of its first sample, and the samples of a row.
#[derive(Clone, Copy, Debug, PartialEq, Eq)]
pub struct Window {
    pub origin: usize,
    pub stride: usize,
}

impl Window {
    // The lines of its vertical edges, and of its horizontal ones.
    pub fn vertical(self) -> Lines
        ensures { result ≡ record { at = self.origin; along = self.stride; step = 1 } }
    {
        Lines {
            at: self.origin,
            along: self.stride,
            step: 1,
        }
    }

    pub fn horizontal(self) -> Lines
        ensures { result ≡ record { at = self.origin; along = 1; step = self.stride } }
    {
        Lines {
            at: self.origin,
            along: 1,
            step: self.stride,
        }
    }
}

// Where a picture lies in the planes: its line r is line times * r + skip of theirs.
#[derive(Clone, Copy, Debug, PartialEq, Eq)]
pub struct Layout {
    pub times: usize,
    pub skip: usize,
}

// All that a macroblock is filtered with, but for its strengths.
#[derive(Clone, Copy, Debug, PartialEq, Eq)]
pub struct Plan {
    pub on: Switches,
    pub luma: Window,
    pub chroma: Window,
    pub levels: Levels,
}

// The levels of a macroblock. Where there is no neighbour, its own QP stands for the neighbour's.
#[tactic(auto, using(crate::proofs::Rulesets::neighbours))]
fn levels_at(place: Place, qps: &[u8], o: Offsets) -> Levels
    requires x_lt_w { (place.x < place.w) × (place.y * place.w + place.w ≤ length qps.now) }
    ensures { result ≡ levels_of eight (pos (entries qps.now (place.y * place.w + place.x))) (pos (entries qps.now (before_of (ltb 0 place.x) (place.y * place.w + place.x) 1))) (pos (entries qps.now (before_of (ltb 0 place.y) (place.y * place.w + place.x) place.w))) o.a o.b o.chroma_u o.chroma_v }
{
    let i = place.address();
    let own = i16::from(qps[i]);
    let left = i16::from(qps[place.left().unwrap_or(i)]);
    let above = i16::from(qps[place.upper().unwrap_or(i)]);
    of_planes(Qps { own, left, above }, o)
}

// A frame has all lines of the planes, a field every second.
fn layout_of(part: Part) -> Layout
    ensures { result ≡ layout_of part }
{
    match part {
        Part::Frame => Layout { times: 1, skip: 0 },
        Part::Field(parity) => Layout {
            times: 2,
            skip: usize::from(parity),
        },
    }
}

// Where a macroblock lies in a plane of `side` by `side` samples a macroblock.
fn window_at(l: Layout, side: usize, place: Place) -> Window
    requires { SmallWindow l side place.w place.x place.y }
    ensures { result ≡ window_of l side place.w place.x place.y }
{
    let line = side * place.w;
    let stride = l.times * line;
    let origin = l.skip * line + side * place.y * stride + side * place.x;
    Window { origin, stride }
}

// Which edges of a macroblock are filtered: where there is no neighbour there is no edge.
fn switches_at(on: EdgesOn, place: Place, t8: bool) -> Switches
    ensures { result ≡ record { left = on.left && ltb 0 place.x; top = on.top && ltb 0 place.y; inner = on.inner; t8 = t8 } }
{
    Switches {
        left: on.left & (0 < place.x),
        top: on.top & (0 < place.y),
        inner: on.inner,
        t8,
    }
}

// All of it. The macroblock's luma places fit a usize.
#[tactic(auto, using(crate::proofs::Rulesets::windows))]
pub fn plan_at(part: Part, place: Place, grids: &MbGrids<'_>, settings: Settings) -> Plan
    requires part_value { (bad_parity part ≡ false) × (256 * frame_of_part part (place.y * place.w + place.w) < 18446744073709551616) }
    requires x_lt_w { (place.x < place.w) × (place.y * place.w + place.w ≤ length grids.now.qps.now) × (eqb (length grids.now.t8s.now) 0 ≡ false → place.y * place.w + place.w ≤ length grids.now.t8s.now) }
    ensures { (strengths : ℕ → ℕ) → result ≡ plan_of (held_as place.w strengths grids.now.qps.now grids.now.t8s.now settings.offsets settings.on) (layout_of part) place.x place.y }
{
    let l = layout_of(part);
    let luma = window_at(l, 16, place);
    let chroma = window_at(l, 8, place);
    let t8 = flag_at(grids.t8s, place.address());
    let levels = levels_at(place, grids.qps, settings.offsets);
    let on = switches_at(settings.on, place, t8);
    Plan {
        on,
        luma,
        chroma,
        levels,
    }
}

// Macroblocks and rows of a picture, which is a part of three planes.
// Kept: (1) that x is below w is asked: a call is told places outside its picture and refuses them, so that
// `Place` holds any. And so is that the parity is a field's, as `Part` says.
// (4) That rows lie in their picture, and that planes and grids have `Room`: facts of two values each.
ghost use Rattle.std.specs.Prelude.{◌≡◌, false, ◌+◌, ◌*◌, ◌<◌, ◌≤◌, length};
ghost use Rattle.sizes.specs.Sizes.{bad_parity, frame_of_part};
ghost use Rattle.edges.specs.Picture.{entries};
ghost use Rattle.edges.specs.Alike.{held_as, every_edge};
ghost use Rattle.edges.specs.Laid.{layout_of, laid_mb, laid_row, laid_rows};
ghost use Rattle.edges.specs.Inner.{Room};
ghost use Rattle.edges.specs.LentPlanes.{samples, SamePlanes};

use crate::macroblock::{all_zero, chroma_planes, luma_plane};
use crate::plan::plan_at;
use crate::{EdgesOn, MbGrids, Planes, Settings};
use sizes::places::Place;
use sizes::{Part, Picture};

// A slice that lets all of them be.
pub fn every_edge() -> EdgesOn
    ensures { result ≡ every_edge }
{
    EdgesOn {
        left: true,
        top: true,
        inner: true,
    }
}

// The edges of a macroblock, whatever its strengths are. A caller asks first whether they are all 0: then
// nothing is to do.
pub fn filter_edges(
    planes: &mut Planes<'_>,
    part: Part,
    place: Place,
    grids: &MbGrids<'_>,
    settings: Settings,
)
    requires { (bad_parity part ≡ false) × (place.x < place.w) × Room (frame_of_part part (place.y * place.w + place.w)) (place.y * place.w + place.w) (length planes.old.luma.now) (length planes.old.u.now) (length planes.old.v.now) (length grids.now.qps.now) (length grids.now.t8s.now) (length grids.now.strengths.now) }
    ensures same { SamePlanes planes.old planes.new }
    ensures is { samples planes.new ≡ laid_mb (held_as place.w (entries grids.now.strengths.now) grids.now.qps.now grids.now.t8s.now settings.offsets settings.on) (layout_of part) place.x place.y (samples planes.old) }
{
    let mine = &grids.strengths[32 * place.address()..];
    let plan = plan_at(part, place, grids, settings);
    let on = plan.on;
    let levels = plan.levels;
    luma_plane(planes.luma, on, plan.luma, mine, levels.luma);
    chroma_planes(planes.u, planes.v, on, plan.chroma, mine, levels.chroma);
}

// A macroblock, as `filter_edges`. Where all its strengths are 0 nothing is to do.
pub fn macroblock(
    planes: &mut Planes<'_>,
    part: Part,
    place: Place,
    grids: &MbGrids<'_>,
    settings: Settings,
)
    requires { (bad_parity part ≡ false) × (place.x < place.w) × Room (frame_of_part part (place.y * place.w + place.w)) (place.y * place.w + place.w) (length planes.old.luma.now) (length planes.old.u.now) (length planes.old.v.now) (length grids.now.qps.now) (length grids.now.t8s.now) (length grids.now.strengths.now) }
    ensures same { SamePlanes planes.old planes.new }
    ensures is { samples planes.new ≡ laid_mb (held_as place.w (entries grids.now.strengths.now) grids.now.qps.now grids.now.t8s.now settings.offsets settings.on) (layout_of part) place.x place.y (samples planes.old) }
{
    if all_zero(grids.strengths, 32 * place.address()) {
        return;
    }
    filter_edges(planes, part, place, grids, settings);
}

// Row y from left to right. Kept: (4) x is a macroblock's column, by which no slice is indexed.
#[tactic(auto, using(laws::proofs::Loop::loops), unfolding(crate::specs::Laid::laid_row))]
fn one_row(
    planes: &mut Planes<'_>,
    picture: Picture,
    y: usize,
    grids: &MbGrids<'_>,
    settings: Settings,
)
    requires { (bad_parity picture.part ≡ false) × Room (frame_of_part picture.part (y * picture.size.w + picture.size.w)) (y * picture.size.w + picture.size.w) (length planes.old.luma.now) (length planes.old.u.now) (length planes.old.v.now) (length grids.now.qps.now) (length grids.now.t8s.now) (length grids.now.strengths.now) }
    ensures same { SamePlanes planes.old planes.new }
    ensures is { samples planes.new ≡ laid_row (held_as picture.size.w (entries grids.now.strengths.now) grids.now.qps.now grids.now.t8s.now settings.offsets settings.on) (layout_of picture.part) y (samples planes.old) }
{
    let w = picture.size.w;
    for x in 0..w {
        macroblock(planes, picture.part, Place { w, x, y }, grids, settings);
    }
}

// Rows a to b, of which b is not one, of a picture of any size that there is room for, all by the same
// settings. Kept: (1) a and b for a range: `laid_rows` names both; (4) y is a row's number, by which no slice
// is indexed.
#[tactic(auto, using(crate::proofs::Rulesets::rows_of_part), unfolding(crate::specs::Laid::laid_rows))]
pub fn rows(
    planes: &mut Planes<'_>,
    picture: Picture,
    a: usize,
    b: usize,
    grids: &MbGrids<'_>,
    settings: Settings,
)
    requires { (bad_parity picture.part ≡ false) × (a ≤ b) × (b ≤ picture.size.h) × Room (frame_of_part picture.part (picture.size.w * picture.size.h)) (picture.size.w * picture.size.h) (length planes.old.luma.now) (length planes.old.u.now) (length planes.old.v.now) (length grids.now.qps.now) (length grids.now.t8s.now) (length grids.now.strengths.now) }
    ensures same { SamePlanes planes.old planes.new }
    ensures is { samples planes.new ≡ laid_rows (held_as picture.size.w (entries grids.now.strengths.now) grids.now.qps.now grids.now.t8s.now settings.offsets settings.on) (layout_of picture.part) a b (samples planes.old) }
{
    for y in a..b {
        one_row(planes, picture, y, grids, settings);
    }
}

// Macroblocks of a picture and its rows, filtered where they lie in the planes.
// Kept: (4) what is asked are facts of two values each, a place or a row and what is lent (`PlanesHold`,
// `GridsHold`); (1) that the parity is good and the place inside: `Part` takes any number, of which calls
// answer 19, and `Place` any column.
ghost use Rattle.std.specs.Prelude.{◌≡◌, false, ◌+◌, ◌*◌, ◌<◌, ◌≤◌};
ghost use Rattle.edges.specs.Laid.{layout_of, laid_mb, laid_row};
ghost use Rattle.edges.specs.LentPlanes.{samples, SamePlanes};
ghost use Rattle.sizes.specs.Sizes.{bad_parity, frame_of_part};
ghost use Rattle.pictures.specs.Checks.{held_of};
ghost use Rattle.pictures.specs.Inner.{PlanesHold, GridsHold, given_wide};
ghost use Rattle.pictures.specs.LentData.{given};

use crate::Lent;
use edges::Planes;
use edges::macroblock::all_zero;
use edges::picture::filter_edges;
use sizes::places::Place;
use sizes::{Part, Picture};

// A macroblock of any strengths.
fn filter_busy(part: Part, place: Place, planes: &mut Planes<'_>, lent: &Lent<'_>)
    requires place { (bad_parity part ≡ false) × (place.x < place.w) × (place.y * place.w + place.w ≤ 36864) }
    requires planes { PlanesHold (frame_of_part part (place.y * place.w + place.w)) (samples planes.old) }
    requires grids { GridsHold (place.y * place.w + place.w) (given_wide place.w lent.now) }
    ensures same { SamePlanes planes.old planes.new }
    ensures is { samples planes.new ≡ laid_mb (held_of (given_wide place.w lent.now)) (layout_of part) place.x place.y (samples planes.old) }
{
    let settings = lent.slicing.settings_at(place);
    filter_edges(planes, part, place, &lent.grids, settings);
}

// A macroblock, and the strengths that are lent, which a row takes once: each macroblock would load anew
// where they begin. Where all of its own are 0 nothing is to do, and since this is inlined no call is made: a
// whole picture without edges took more than twice as long with one. The place is made anew for the call, so
// that an idle macroblock stores none.
#[inline(always)]
fn filter_unless_idle(
    part: Part,
    place: Place,
    planes: &mut Planes<'_>,
    lent: &Lent<'_>,
    strengths: &[u8],
)
    requires place { (bad_parity part ≡ false) × (place.x < place.w) × (place.y * place.w + place.w ≤ 36864) }
    requires planes { PlanesHold (frame_of_part part (place.y * place.w + place.w)) (samples planes.old) }
    requires grids { GridsHold (place.y * place.w + place.w) (given_wide place.w lent.now) }
    requires strengths { strengths.now ≡ lent.now.grids.strengths.now }
    ensures same { SamePlanes planes.old planes.new }
    ensures is { samples planes.new ≡ laid_mb (held_of (given_wide place.w lent.now)) (layout_of part) place.x place.y (samples planes.old) }
{
    if all_zero(strengths, 32 * place.address()) {
        return;
    }
    let Place { w, x, y } = place;
    filter_busy(part, Place { w, x, y }, planes, lent);
}

// A macroblock by itself.
#[inline(always)]
pub fn filter_macroblock(part: Part, place: Place, planes: &mut Planes<'_>, lent: &Lent<'_>)
    requires place { (bad_parity part ≡ false) × (place.x < place.w) × (place.y * place.w + place.w ≤ 36864) }
    requires planes { PlanesHold (frame_of_part part (place.y * place.w + place.w)) (samples planes.old) }
    requires grids { GridsHold (place.y * place.w + place.w) (given_wide place.w lent.now) }
    ensures same { SamePlanes planes.old planes.new }
    ensures is { samples planes.new ≡ laid_mb (held_of (given_wide place.w lent.now)) (layout_of part) place.x place.y (samples planes.old) }
{
    filter_unless_idle(part, place, planes, lent, lent.grids.strengths);
}

// Row y from left to right. Kept: (4) x is a macroblock's column, by which no slice is indexed.
#[tactic(auto, using(laws::proofs::Loop::loops), unfolding(edges::specs::Laid::laid_row))]
pub fn filter_row(picture: Picture, y: usize, planes: &mut Planes<'_>, lent: &Lent<'_>)
    requires parity { (bad_parity picture.part ≡ false) × (y * picture.size.w + picture.size.w ≤ 36864) }
    requires planes { PlanesHold (frame_of_part picture.part (y * picture.size.w + picture.size.w)) (samples planes.old) }
    requires grids { GridsHold (y * picture.size.w + picture.size.w) (given picture.size lent.now) }
    ensures same { SamePlanes planes.old planes.new }
    ensures is { samples planes.new ≡ laid_row (held_of (given picture.size lent.now)) (layout_of picture.part) y (samples planes.old) }
{
    let w = picture.size.w;
    let strengths = lent.grids.strengths;
    for x in 0..w {
        filter_unless_idle(picture.part, Place { w, x, y }, planes, lent, strengths);
    }
}

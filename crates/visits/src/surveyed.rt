// A visit of slices that were surveyed: who replays visits looks through a table before them, not at each.
ghost use Rattle.std.specs.Prelude.{◌≡◌};
ghost use Rattle.edges.specs.LentPlanes.{samples, SamePlanes};
ghost use Rattle.refusals.specs.Refusals.{number_of};
ghost use Rattle.slices.specs.Inner.{survey_of_slices};
ghost use Rattle.slices.specs.LentSlicing.{slicing_of};
ghost use Rattle.pictures.specs.LentData.{given};
ghost use Rattle.visits.specs.Promise.{VisitOutcome};

use crate::checks::check_early;
use crate::readiness::check_ready;
use edges::Planes;
use pictures::Lent;
use pictures::macroblocks::filter_macroblock;
use refusals::Refusal;
use sizes::Picture;
use sizes::places::Place;
use slices::Survey;

// `visit`, told what the slices come to. It is inlined, so that a visit hands on no more arguments than it is
// given.
#[inline(always)]
pub fn visit_surveyed(
    picture: Picture,
    x: usize,
    y: usize,
    planes: &mut Planes<'_>,
    lent: &Lent<'_>,
    marks: &mut [u8],
    survey: Survey,
) -> Result<(), Refusal>
    requires { survey ≡ survey_of_slices (slicing_of lent.now.slicing) }
    ensures same { SamePlanes planes.old planes.new }
    ensures outcome { VisitOutcome picture.part (given picture.size lent.now) (samples planes.old, marks.old) (x, y) (number_of result) (samples planes.new, marks.new) }
{
    check_early(picture, x, y, planes, lent, marks, survey)?;
    let w = picture.size.w;
    let place = Place { w, x, y };
    check_ready(marks, place)?;
    filter_macroblock(picture.part, place, planes, lent);
    let i = place.address();
    marks[i] = 1;
    Ok(())
}

// The checks of a visit before 13, in the order of their numbers.
// Kept: (4) that a place lies in a grid is a fact of two values, by one name.
ghost use Rattle.std.specs.Prelude.{◌≡◌, false, ◌+◌, ◌*◌, ◌<◌, ◌≤◌, eqb, length};
ghost use Rattle.laws.specs.Refusal.{refusal};
ghost use Rattle.edges.specs.LentPlanes.{samples};
ghost use Rattle.refusals.specs.Refusals.{number_of};
ghost use Rattle.pictures.specs.Checks.{bad_qp};
ghost use Rattle.pictures.specs.Inner.{GridsHold, given_wide};
ghost use Rattle.pictures.specs.LentData.{given};
ghost use Rattle.sizes.specs.Inner.{InPicture};
ghost use Rattle.slices.specs.Inner.{NumbersHold};
ghost use Rattle.slices.specs.LentSlicing.{slicing_of};
ghost use Rattle.slices.specs.Slicing.{some_bad_number};
ghost use Rattle.visits.specs.Checks.{bad_marks, bad_around};
ghost use Rattle.visits.specs.Inner.{told_entry_checks, early_by};

use edges::Planes;
use pictures::Lent;
use pictures::checks::{BadEntries, any_bad_flag, any_bad_strength, check_picture};
use refusals::Refusal;
use sizes::Picture;
use sizes::entries::{bad_before, bad_near, over_near};
use sizes::places::Place;
use slices::{Slicing, Survey};

// Check 7, of the marks.
#[tactic(auto, unfolding(crate::specs::Checks::bad_marks))]
fn bad_marks(marks: &[u8], place: Place) -> bool
    requires { InPicture place.w place.x place.y (length marks.now) }
    ensures { result ≡ bad_marks marks.now place.w place.x place.y }
{
    let near = over_near(marks, place, 1);
    let upper_right = bad_before(marks, place.upper_right(), &|mark| 1 < mark);
    near | upper_right
}

// Check 8.
#[tactic(auto, unfolding(crate::specs::Checks::bad_around))]
fn bad_qps(qps: &[u8], place: Place) -> bool
    requires { InPicture place.w place.x place.y (length qps.now) }
    ensures { result ≡ bad_around bad_qp qps.now place.w place.x place.y }
{
    over_near(qps, place, 51)
}

// Check 20: a number is past the table. Kept: (4) beside `any_bad_number` of pictures: a method of `Slicing`
// that is told by a closure how to look would match once, but each closure would have to state what it asks
// for and what it finds, which is longer than the match.
fn bad_numbers(slicing: &Slicing<'_>, place: Place) -> bool
    requires { InPicture place.w place.x place.y 36864 × NumbersHold (place.y * place.w + place.x + 1) (slicing_of slicing.now) }
    ensures { result ≡ some_bad_number (slicing_of slicing.now) (λ bad ns. bad_around bad ns place.w place.x place.y) }
{
    match slicing {
        Slicing::Single(_) => false,
        Slicing::Table {
            records,
            numbers,
            ..
        } => {
            let count = records.len();
            bad_near(numbers, place, &|number| count <= usize::from(number))
        }
    }
}

// Checks 7 to 9, 20 and 21, of which the last is told.
#[inline(always)]
fn check_visit_entries(
    place: Place,
    lent: &Lent<'_>,
    marks: &[u8],
    bad_mode: bool,
) -> Result<(), Refusal>
    requires place { InPicture place.w place.x place.y (length marks.now) × InPicture place.w place.x place.y 36864 }
    requires grids { GridsHold (place.y * place.w + place.x + 1) (given_wide place.w lent.now) }
    ensures { number_of result ≡ refusal (told_entry_checks bad_mode (given_wide place.w lent.now) marks.now (place.x, place.y)) }
{
    let i = place.address();
    let grids = &lent.grids;
    let bad = BadEntries {
        flag: any_bad_flag(grids.t8s, i, i + 1) | bad_marks(marks, place),
        qp: bad_qps(grids.qps, place),
        strength: any_bad_strength(grids.strengths, i, i + 1),
        number: bad_numbers(&lent.slicing, place),
        mode: bad_mode,
    };
    bad.check()
}

// All of them; of the slices it is told what they come to. Kept: (1) x and y for a place: places outside the
// picture are refused with 2, and a `Place` there would have a width of its own beside the picture's.
#[inline(always)]
pub fn check_early(
    picture: Picture,
    x: usize,
    y: usize,
    planes: &Planes<'_>,
    lent: &Lent<'_>,
    marks: &[u8],
    survey: Survey,
) -> Result<(), Refusal>
    ensures { number_of result ≡ early_by survey picture.part (given picture.size lent.now) (samples planes.now, marks.now) (x, y) }
{
    let size = picture.size;
    check_picture(picture, (size.w <= x) | (size.h <= y), planes)?;
    let n = size.count();
    lent.check_grids(n, marks.len() != n, survey.bad_offset)?;
    check_visit_entries(Place { w: size.w, x, y }, lent, marks, survey.bad_mode)
}

// Checks 13 and 14.
// Kept: (4) that a place lies in the marks is a fact of two values, by one name.
ghost use Rattle.std.specs.Prelude.{◌≡◌, cond, length};
ghost use Rattle.refusals.specs.Refusals.{number_of};
ghost use Rattle.sizes.specs.Inner.{InPicture};
ghost use Rattle.visits.specs.Visit.{marked, waiting};

use refusals::Refusal;
use sizes::entries::bad_before;
use sizes::places::Place;

// A neighbour that a macroblock waits for is unmarked.
fn waits(marks: &[u8], place: Place) -> bool
    requires { InPicture place.w place.x place.y (length marks.now) }
    ensures { result ≡ waiting place.w marks.now place.x place.y }
{
    let unmarked = |mark| mark != 1;
    let left = bad_before(marks, place.left(), &unmarked);
    let upper = bad_before(marks, place.upper(), &unmarked);
    let upper_right = bad_before(marks, place.upper_right(), &unmarked);
    left | upper | upper_right
}

// Whether a macroblock may be visited: it has not been, and it waits for no neighbour.
pub fn check_ready(marks: &[u8], place: Place) -> Result<(), Refusal>
    requires { InPicture place.w place.x place.y (length marks.now) }
    ensures { number_of result ≡ cond (marked place.w marks.now place.x place.y) 13 (cond (waiting place.w marks.now place.x place.y) 14 0) }
{
    if marks[place.address()] == 1 {
        return Err(Refusal::Visited);
    }
    if waits(marks, place) {
        return Err(Refusal::NotReady);
    }
    Ok(())
}

// A visit of a picture, which is a frame or a field of one, and visits replayed: marks are the picture's, the
// planes are the frame's. Neither asks anything of its caller; a refusal changes no byte.
ghost use Rattle.std.specs.Prelude.{◌≡◌, OnErr};
ghost use Rattle.edges.specs.LentPlanes.{samples, SamePlanes};
ghost use Rattle.refusals.specs.Refusals.{number_of, answer_numbers};
ghost use Rattle.pictures.specs.LentData.{given};
ghost use Rattle.visits.specs.Promise.{VisitOutcome, ReplayOutcome};

use crate::surveyed::visit_surveyed;
use edges::Planes;
use pictures::Lent;
use refusals::Refusal;
use sizes::Picture;

// Macroblock (x, y) filtered and marked, or a refusal. One whose strengths are all 0 is marked alone. Kept:
// (1) x and y for a place: places outside the picture are refused with 2, and a `Place` there would have a
// width of its own beside the picture's. It is inlined, as what it asks first is: called, a visit of an idle
// macroblock took half as long again.
#[inline(always)]
pub fn visit(
    picture: Picture,
    x: usize,
    y: usize,
    planes: &mut Planes<'_>,
    lent: &Lent<'_>,
    marks: &mut [u8],
) -> Result<(), Refusal>
    ensures same { SamePlanes planes.old planes.new }
    ensures outcome { VisitOutcome picture.part (given picture.size lent.now) (samples planes.old, marks.old) (x, y) (number_of result) (samples planes.new, marks.new) }
{
    visit_surveyed(picture, x, y, planes, lent, marks, lent.slicing.survey())
}

// Requests as they arrived, replayed: (xs[k], ys[k]) for each k in turn, each answer in answers[k]. Lists of
// different lengths are refused with 4. Kept: (1) two lists: `ReplayOutcome` says what lists of different
// lengths come to, which one list of requests could not have; (4) by index: after an adapter of
// `iter_mut` a proof knows nothing of the answers, and over the answers alone both lists would be read so.
pub fn replay(
    picture: Picture,
    xs: &[usize],
    ys: &[usize],
    planes: &mut Planes<'_>,
    lent: &Lent<'_>,
    marks: &mut [u8],
    answers: &mut [Result<(), Refusal>],
) -> Result<(), Refusal>
    ensures same { SamePlanes planes.old planes.new }
    ensures outcome { ReplayOutcome picture.part (given picture.size lent.now) xs.now ys.now (samples planes.old, marks.old) (answer_numbers answers.old) (number_of result) (samples planes.new, marks.new) (answer_numbers answers.new) }
    ensures kept { OnErr result (answers.new ≡ answers.old) }
{
    if (ys.len() != xs.len()) | (answers.len() != xs.len()) {
        return Err(Refusal::Grids);
    }
    let survey = lent.slicing.survey();
    for (k, x) in xs.iter().enumerate() {
        answers[k] = visit_surveyed(picture, *x, ys[k], planes, lent, marks, survey);
    }
    Ok(())
}

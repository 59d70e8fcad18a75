// Visits of both fields of a frame, replayed. `size` is one field's, and so are marks and what is lent; the
// planes are the frame's. Nothing is asked of the caller; a refusal changes no byte.
ghost use Rattle.std.specs.Prelude.{◌≡◌, OnErr};
ghost use Rattle.refusals.specs.Refusals.{number_of, answer_numbers};
ghost use Rattle.slices.specs.Inner.{survey_of_slices};
ghost use Rattle.slices.specs.LentSlicing.{slicing_of};
ghost use Rattle.interlaced.specs.Inner.{OneVisit};
ghost use Rattle.interlaced.specs.LentFields.{of_field_lent, interlaced_of, SameBoth};
ghost use Rattle.interlaced.specs.Promise.{FieldsOutcome};

use crate::{FieldsLent, Interlaced};
use refusals::Refusal;
use sizes::{Part, Picture, Size};
use slices::Survey;
use visits::surveyed::visit_surveyed;

// Macroblock (x, y) of the field of a parity, filtered and marked, or a refusal; the slices of both fields
// were surveyed. A parity that no field has is refused before anything that is lent for a field is looked at.
// Kept: (1) the parity as a number, of which calls answer 19 (`Part`), and x and y for a place: places
// outside the field are refused with 2.
fn visit_field(
    size: Size,
    parity: u8,
    x: usize,
    y: usize,
    both: &mut Interlaced<'_>,
    lent: &FieldsLent<'_>,
    top_survey: Survey,
    bottom_survey: Survey,
) -> Result<(), Refusal>
    requires top { top_survey ≡ survey_of_slices (slicing_of lent.now.top.slicing) }
    requires bottom { bottom_survey ≡ survey_of_slices (slicing_of lent.now.bottom.slicing) }
    ensures same { SameBoth both.old both.new }
    ensures outcome { OneVisit size (of_field_lent lent.now.top) (of_field_lent lent.now.bottom) (interlaced_of both.old) (parity, (x, y)) (number_of result) (interlaced_of both.new) }
{
    let part = Part::Field(parity);
    let field = Picture { size, part };
    let top = parity == 0;
    if top {
        return visit_surveyed(
            field,
            x,
            y,
            &mut both.frame,
            &lent.top,
            both.top,
            top_survey,
        );
    }
    visit_surveyed(
        field,
        x,
        y,
        &mut both.frame,
        &lent.bottom,
        both.bottom,
        bottom_survey,
    )
}

// Requests to both fields as they arrived, replayed: a visit of (xs[k], ys[k]) of the field of parity ps[k]
// for each k in turn, each answer in answers[k]. Lists of different lengths are refused with 4. Kept: (1)
// three lists: `FieldsOutcome` says what lists of different lengths come to, which one list of requests could
// not have; (4) by index, as `replay` of visits.
pub fn replay_fields(
    size: Size,
    ps: &[u8],
    xs: &[usize],
    ys: &[usize],
    both: &mut Interlaced<'_>,
    lent: &FieldsLent<'_>,
    answers: &mut [Result<(), Refusal>],
) -> Result<(), Refusal>
    ensures same { SameBoth both.old both.new }
    ensures outcome { FieldsOutcome size (of_field_lent lent.now.top) (of_field_lent lent.now.bottom) ps.now xs.now ys.now (interlaced_of both.old) (answer_numbers answers.old) (number_of result) (interlaced_of both.new) (answer_numbers answers.new) }
    ensures kept { OnErr result (answers.new ≡ answers.old) }
{
    if (ps.len() != xs.len()) | (ys.len() != xs.len()) | (answers.len() != xs.len()) {
        return Err(Refusal::Grids);
    }
    let top = lent.top.slicing.survey();
    let bottom = lent.bottom.slicing.survey();
    for (k, x) in xs.iter().enumerate() {
        answers[k] = visit_field(size, ps[k], *x, ys[k], both, lent, top, bottom);
    }
    Ok(())
}

// The two calls that filter rows of a picture, which is a frame or a field of one; the planes are the
// frame's. Neither asks anything of its caller; a refusal changes no byte.
ghost use Rattle.edges.specs.LentPlanes.{samples, SamePlanes};
ghost use Rattle.refusals.specs.Refusals.{number_of};
ghost use Rattle.pictures.specs.LentData.{given};
ghost use Rattle.pictures.specs.Rows.{RowOutcome, WholeOutcome};

use crate::Lent;
use crate::macroblocks::filter_row;
use crate::row_checks::check_rows;
use edges::Planes;
use refusals::Refusal;
use sizes::Picture;

// Rows a to b, of which b is not one. They read what lies in them, and the QPs and slice numbers of the row
// before them. Kept: (1) a and b for a range: `RowOutcome` names both, and answers 2 where it ends before it
// begins; (4) y is a row's number, by which no slice is indexed.
#[tactic(auto, using(crate::proofs::Rulesets::rows_of_part), unfolding(edges::specs::Laid::laid_rows))]
pub fn filter_rows(
    picture: Picture,
    a: usize,
    b: usize,
    planes: &mut Planes<'_>,
    lent: &Lent<'_>,
) -> Result<(), Refusal>
    ensures same { SamePlanes planes.old planes.new }
    ensures outcome { RowOutcome picture.part (given picture.size lent.now) a b (samples planes.old) (number_of result) (samples planes.new) }
{
    check_rows(picture, a, b, planes, lent)?;
    for y in a..b {
        filter_row(picture, y, planes, lent);
    }
    Ok(())
}

// A whole picture.
pub fn filter_whole(
    picture: Picture,
    planes: &mut Planes<'_>,
    lent: &Lent<'_>,
) -> Result<(), Refusal>
    ensures same { SamePlanes planes.old planes.new }
    ensures outcome { WholeOutcome picture.part (given picture.size lent.now) (samples planes.old) (number_of result) (samples planes.new) }
{
    filter_rows(picture, 0, picture.size.h, planes, lent)
}

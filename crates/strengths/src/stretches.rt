// The macroblocks of a row from one to another: all checks first, then all strengths. Both loops are here for
// the single calls too, whose stretch is one macroblock: what has one caller is compiled into it, and slices
// are not handed on. Kept: (4) that what is told fits the picture (`ToldFits`) is a fact of two values, by
// one name, of which three functions ask it and each is given both.
ghost use Rattle.std.specs.Prelude.{◌≡◌, ◌+◌, ◌*◌, ◌<◌, ◌≤◌, length};
ghost use Rattle.laws.specs.Refusal.{refusal};
ghost use Rattle.motion.specs.Lent.{grids_of};
ghost use Rattle.refusals.specs.Refusals.{number_of};
ghost use Rattle.strengths.specs.Calls.{length_checks};
ghost use Rattle.strengths.specs.Inner.{stretch_answer, stretch_written, StretchOutcome};
ghost use Rattle.strengths.specs.Told.{known_of, kinds_of, ToldFits};

use crate::Source;
use crate::checks::check_lengths;
use crate::kinds::Told;
use crate::macroblocks::{check_at, derive_at};
use refusals::Refusal;

// Macroblocks `first` to `last` of row y.
#[derive(Clone, Copy, Debug, PartialEq, Eq)]
pub struct Stretch {
    pub y: usize,
    pub first: usize,
    pub last: usize,
    pub ghost in_order: { first ≤ last },
}

impl Stretch {
    // The column after the last.
    fn end(self) -> usize
        requires { self.last < 18446744073709551615 }
        ensures { result ≡ self.last + 1 }
    {
        self.last + 1
    }
}

// The first refusal. `strengths` is the length of their grid.
#[tactic(auto, using(laws::proofs::Loop::loops), unfolding(crate::specs::Inner::stretch_answer))]
fn check_stretch(
    source: &Source<'_>,
    stretch: Stretch,
    told: Told<'_>,
    strengths: usize,
) -> Result<(), Refusal>
    requires strengths_value { refusal (length_checks source.now.size stretch.first stretch.y source.now.t8s.now (grids_of source.now.grids) strengths) ≡ 0 }
    requires told_value { ToldFits source.now.size told }
    requires within { stretch.last < source.now.size.w }
    ensures { number_of result ≡ stretch_answer source.now.size stretch.first (stretch.last + 1) stretch.y (known_of told.entry) (kinds_of told.entry) source.now.t8s.now (grids_of source.now.grids) strengths }
{
    let w = source.size.w;
    let y = stretch.y;
    let end = stretch.end();
    // Kept: (4) x is a macroblock's column; of what the loop goes over nothing is indexed by it alone.
    for x in stretch.first..end {
        let known = told.at(y * w + x);
        check_at(source, x, y, known, strengths)?;
    }
    Ok(())
}

// All strengths, where there is none.
#[tactic(auto, using(laws::proofs::Loop::loops), unfolding(crate::specs::Inner::stretch_written))]
fn write_stretch(source: &Source<'_>, stretch: Stretch, told: Told<'_>, strengths: &mut [u8])
    requires told_value { ToldFits source.now.size told }
    requires within { stretch.last < source.now.size.w }
    requires strengths_value { stretch_answer source.now.size stretch.first (stretch.last + 1) stretch.y (known_of told) (kinds_of told) source.now.t8s.now (grids_of source.now.grids) (length strengths.old) ≡ 0 }
    ensures { strengths.new ≡ stretch_written source.now.size source.now.field stretch.first (stretch.last + 1) stretch.y source.now.t8s.now (grids_of source.now.grids) strengths.old }
{
    let w = source.size.w;
    let y = stretch.y;
    let end = stretch.end();
    // Kept: (4) x is a macroblock's column, as above.
    for x in stretch.first..end {
        let known = told.at(y * w + x);
        derive_at(source, x, y, known, strengths);
    }
}

// A stretch, of which either all is in the picture or the first macroblock is not.
pub fn derive_stretch(
    source: &Source<'_>,
    stretch: Stretch,
    told: Told<'_>,
    strengths: &mut [u8],
) -> Result<(), Refusal>
    requires told_value { ToldFits source.now.size told }
    requires within { stretch.first < source.now.size.w → stretch.last < source.now.size.w }
    ensures { StretchOutcome source.now.size source.now.field stretch.first (stretch.last + 1) stretch.y (known_of told.entry) (kinds_of told.entry) source.now.t8s.now (grids_of source.now.grids) strengths.old (number_of result) strengths.new }
{
    check_lengths(source, stretch.first, stretch.y, strengths.len())?;
    check_stretch(source, stretch, told, strengths.len())?;
    write_stretch(source, stretch, told, strengths);
    Ok(())
}

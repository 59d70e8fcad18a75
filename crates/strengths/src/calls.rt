// The strength calls, of a macroblock and of a row. None asks anything of its caller; a refusal changes no
// byte. Kept: (1) x and y: a call is told places outside its picture and refuses them (`DeriveOutcome`), and
// a `Place` would have a width of its own beside the picture's; kinds as numbers, as C lends them: a number
// that is no kind is refused where its macroblock's turn comes (`DeriveRowOutcome`).
ghost use Rattle.std.specs.Prelude.{◌≡◌};
ghost use Rattle.laws.specs.Refusal.{refusal};
ghost use Rattle.motion.specs.Lent.{grids_of};
ghost use Rattle.refusals.specs.Refusals.{number_of};
ghost use Rattle.strengths.specs.Calls.{untrue_known, derive_row_checks, DeriveOutcome, KindOutcome, FlagsOutcome, PlainOutcome, DeriveRowOutcome};

use crate::Source;
use crate::kinds::{Flagged, Known, Request, Told};
use crate::stretches::{Stretch, derive_stretch};
use refusals::Refusal;
use sizes::entries::bad_flag_count;
use sizes::{Size, bad_size};

// Strengths of a macroblock of which something may be known: a stretch of one.
pub fn derive_known(
    source: &Source<'_>,
    x: usize,
    y: usize,
    known: Known,
    strengths: &mut [u8],
) -> Result<(), Refusal>
    ensures { DeriveOutcome source.now.size source.now.field x y source.now.t8s.now (grids_of source.now.grids) (untrue_known known (grids_of source.now.grids) source.now.size.w x y) strengths.old (number_of result) strengths.new }
{
    let stretch = Stretch {
        y,
        first: x,
        last: x,
    };
    derive_stretch(source, stretch, Told::Same(known), strengths)
}

// Strengths of a macroblock whose kind is known.
pub fn derive_mb_kind(source: &Source<'_>, r: Request, strengths: &mut [u8]) -> Result<(), Refusal>
    ensures { KindOutcome source.now.size source.now.field r source.now.t8s.now (grids_of source.now.grids) strengths.old (number_of result) strengths.new }
{
    derive_known(source, r.x, r.y, Known::Stated(r.kind), strengths)
}

// Strengths with flags that the caller sets where they are true.
pub fn derive_mb_bs(source: &Source<'_>, f: Flagged, strengths: &mut [u8]) -> Result<(), Refusal>
    ensures { FlagsOutcome source.now.size source.now.field f source.now.t8s.now (grids_of source.now.grids) strengths.old (number_of result) strengths.new }
{
    let known = Known::Flags {
        flat: f.flat,
        uniform: f.uniform,
    };
    derive_known(source, f.x, f.y, known, strengths)
}

// Strengths of a macroblock of which nothing is known.
pub fn derive_mb(
    source: &Source<'_>,
    x: usize,
    y: usize,
    strengths: &mut [u8],
) -> Result<(), Refusal>
    ensures { PlainOutcome source.now.size source.now.field x y source.now.t8s.now (grids_of source.now.grids) strengths.old (number_of result) strengths.new }
{
    derive_known(source, x, y, Known::NOTHING, strengths)
}

// Checks 1, 2 and 4 of a row. Kept: (4) the first two as elsewhere: all three are one list of specs/.
fn check_row(size: Size, y: usize, kinds: &[u8]) -> Result<(), Refusal>
    ensures { number_of result ≡ refusal (derive_row_checks size y kinds.now) }
{
    if bad_size(size) {
        return Err(Refusal::Size);
    }
    if size.h <= y {
        return Err(Refusal::Outside);
    }
    if bad_flag_count(size.count(), kinds.len()) {
        return Err(Refusal::Grids);
    }
    Ok(())
}

// Strengths of a row of macroblocks, with the kinds of all macroblocks of the picture or none.
pub fn derive_row(
    source: &Source<'_>,
    y: usize,
    kinds: &[u8],
    strengths: &mut [u8],
) -> Result<(), Refusal>
    ensures { DeriveRowOutcome source.now.size source.now.field y kinds.now source.now.t8s.now (grids_of source.now.grids) strengths.old (number_of result) strengths.new }
{
    check_row(source.size, y, kinds)?;
    let stretch = Stretch {
        y,
        first: 0,
        last: source.size.w - 1,
    };
    derive_stretch(source, stretch, Told::Kinds(kinds), strengths)
}

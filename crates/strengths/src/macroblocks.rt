// One macroblock of grids that fit: its checks, then its strengths.
// Kept: (4) that the grids reach the place, and agree there, are facts of two values, by one name each. A
// struct of both would be made twice a macroblock, in `check_at` and in `derive_at`, and functions that are
// given one grid alone, as `is_coded` and `bad_inter`, would ask for the fact all the same. (4) x and y:
// `length_checks` and `answer_of` speak of them with the picture's size, and a place is made of them in both
// functions, since a stretch is checked as a whole before anything is written.
ghost use Rattle.std.specs.Prelude.{◌≡◌, true, false, ◌+◌, ◌*◌, length};
ghost use Rattle.laws.specs.Refusal.{refusal};
ghost use Rattle.motion.specs.Lent.{grids_of};
ghost use Rattle.refusals.specs.Refusals.{number_of};
ghost use Rattle.sizes.specs.Entries.{flag_at};
ghost use Rattle.strengths.specs.Calls.{length_checks, answer_of, untrue_known};
ghost use Rattle.strengths.specs.Checks.{disagree};
ghost use Rattle.strengths.specs.Inner.{GridsReach};
ghost use Rattle.strengths.specs.Kinds.{is_kind};
ghost use Rattle.strengths.specs.Strength.{mode_of, strength_at, written};

use crate::Source;
use crate::blocks::Blocks;
use crate::checks::check_values;
use crate::derive::derive;
use crate::eights::Transforms;
use crate::kinds::{Known, MbKind, Mode};
use crate::own::own_same;
use crate::stored::own_alike;
use crate::walks::some_own;
use motion::grids::Grids;
use refusals::Refusal;
use sizes::places::Place;

// Check 12: what is said is not true of the grids. Motion and counts are looked at only where they tell.
fn untrue_known(known: Known, blocks: Blocks, g: &Grids<'_>) -> bool
    requires within { GridsReach (grids_of g.now) blocks.place.w blocks.place.x blocks.place.y }
    requires agree { disagree g.now.inter.now blocks.place.w blocks.place.x blocks.place.y ≡ false }
    ensures { result ≡ untrue_known known (grids_of g.now) blocks.place.w blocks.place.x blocks.place.y }
{
    let first = g.inter[blocks.origin()] == 1;
    if !known.asks_motion() {
        return known.is_untrue(first, false, false);
    }
    let own = blocks.own();
    let same = own_same(g, own);
    let counted = some_own(own, &|i: usize| 0 < g.nnz[i]);
    known.is_untrue(first, same, counted)
}

// The kind to go by, which is true of the grids: where nothing is said and the blocks are inter, by one quick
// look at their motion.
fn kind_found(known: Known, blocks: Blocks, g: &Grids<'_>) -> MbKind
    requires within { GridsReach (grids_of g.now) blocks.place.w blocks.place.x blocks.place.y }
    requires agree { disagree g.now.inter.now blocks.place.w blocks.place.x blocks.place.y ≡ false }
    requires said { untrue_known known (grids_of g.now) blocks.place.w blocks.place.x blocks.place.y ≡ false }
    ensures { is_kind (grids_of g.now) blocks.place.w blocks.place.x blocks.place.y result ≡ true }
{
    let first = g.inter[blocks.origin()] == 1;
    if first & !known.says_any() {
        return MbKind::of_flags(true, false, own_alike(g, blocks.own()));
    }
    known.kind(first)
}

// What the single call answers, where its lengths have passed. `strengths` is the length of their grid.
pub fn check_at(
    source: &Source<'_>,
    x: usize,
    y: usize,
    known: Known,
    strengths: usize,
) -> Result<(), Refusal>
    requires { refusal (length_checks source.now.size x y source.now.t8s.now (grids_of source.now.grids) strengths) ≡ 0 }
    ensures { number_of result ≡ answer_of source.now.size x y source.now.t8s.now (grids_of source.now.grids) (untrue_known known (grids_of source.now.grids) source.now.size.w x y) strengths }
{
    let w = source.size.w;
    let place = Place { w, x, y };
    let blocks = Blocks { place };
    check_values(blocks, source.t8s, &source.grids)?;
    if untrue_known(known, blocks, &source.grids) {
        return Err(Refusal::Kind);
    }
    Ok(())
}

// Its strengths, where nothing is refused.
pub fn derive_at(source: &Source<'_>, x: usize, y: usize, known: Known, strengths: &mut [u8])
    requires { answer_of source.now.size x y source.now.t8s.now (grids_of source.now.grids) (untrue_known known (grids_of source.now.grids) source.now.size.w x y) (length strengths.old) ≡ 0 }
    ensures { strengths.new ≡ written (y * source.now.size.w + x) (strength_at (mode_of source.now.field) (grids_of source.now.grids) source.now.size.w (flag_at source.now.t8s.now) x y) strengths.old }
{
    let w = source.size.w;
    let place = Place { w, x, y };
    let blocks = Blocks { place };
    let kind = kind_found(known, blocks, &source.grids);
    let t = Transforms::at(source.t8s, place);
    derive(
        kind,
        Mode::for_field(source.field),
        t,
        blocks,
        &source.grids,
        strengths,
    )
}

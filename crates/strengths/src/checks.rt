// The checks of a strength call, in the order of their numbers, but 22 right after 10.
// Kept: (4) that a grid reaches the place (`InGrids`, `InPicture`) is a fact of two values, by one name: what
// asks it is given one grid alone, or as `check_values` several, of which one may be empty.
ghost use Rattle.std.specs.Prelude.{◌≡◌, false, ◌||◌, [], ◌∷◌, ◌+◌, ◌*◌, ◌<◌, ◌≤◌, eqb, ltb, length, get_or};
ghost use Rattle.laws.specs.Refusal.{refusal};
ghost use Rattle.motion.specs.Lent.{grids_of};
ghost use Rattle.motion.specs.Inner.{HoldsOrEmpty};
ghost use Rattle.refusals.specs.Refusals.{number_of};
ghost use Rattle.sizes.specs.Inner.{InPicture};
ghost use Rattle.strengths.specs.Blocks.{own_block, some_read};
ghost use Rattle.strengths.specs.Calls.{length_checks, value_checks_at};
ghost use Rattle.strengths.specs.Checks.{bad_grids, one_table, bad_flags, below_none, not_picture, bad_table, disagree};
ghost use Rattle.strengths.specs.Inner.{InGrids, GridsReach};

use crate::Source;
use crate::blocks::Blocks;
use crate::walks::{some_beside, some_own, some_read};
use motion::grids::{Grids, ReferenceList};
use refusals::Refusal;
use sizes::bad_size;
use sizes::entries::{any_bad, bad_flag_count, over_near};
use sizes::places::Place;

// Check 5, by lengths: n blocks.
fn bad_lengths(n: usize, g: &Grids<'_>) -> bool
    requires { n ≤ 589824 }
    ensures { result ≡ bad_grids n (grids_of g.now) }
{
    let refs1 = g.list1.references.len();
    let vectors1 = g.list1.vectors.len();
    (g.inter.len() != n)
        | (g.nnz.len() != n)
        | (g.list0.references.len() != n)
        | (g.list0.vectors.len() != 2 * n)
        | !(((refs1 == 0) & (vectors1 == 0)) | ((refs1 == n) & (vectors1 == 2 * n)))
}

// Check 5, of the tables: just one is empty, though list 1 is lent or it is list 0's.
fn one_table(ref1: usize, pictures0: usize, pictures1: usize) -> bool
    ensures { result ≡ one_table ref1 pictures0 pictures1 }
{
    ((pictures0 == 0) & (pictures1 != 0)) | ((pictures0 != 0) & (pictures1 == 0) & (ref1 != 0))
}

// Checks 1, 2, 4 and 5, which read lengths alone. `strengths` is that of their grid. Kept: (1) x and y: a
// call is told places outside its picture and refuses them, and a `Place` would have a width of its own
// beside the picture's. (4) checks 1 and 2 are written here as in other calls: all four are one list,
// `length_checks`.
pub fn check_lengths(
    source: &Source<'_>,
    x: usize,
    y: usize,
    strengths: usize,
) -> Result<(), Refusal>
    ensures { number_of result ≡ refusal (length_checks source.now.size x y source.now.t8s.now (grids_of source.now.grids) strengths) }
{
    let size = source.size;
    if bad_size(size) {
        return Err(Refusal::Size);
    }
    if (size.w <= x) | (size.h <= y) {
        return Err(Refusal::Outside);
    }
    let n = size.count();
    if (strengths != 32 * n) | bad_flag_count(n, source.t8s.len()) {
        return Err(Refusal::Grids);
    }
    let g = &source.grids;
    let tables = one_table(
        g.list1.references.len(),
        g.list0.pictures.len(),
        g.list1.pictures.len(),
    );
    if bad_lengths(16 * n, g) | tables {
        return Err(Refusal::Blocks);
    }
    Ok(())
}

// Check 7, of the flags.
fn bad_flags(t8s: &[u8], place: Place) -> bool
    requires { eqb (length t8s.now) 0 ≡ false → InPicture place.w place.x place.y (length t8s.now) }
    ensures { result ≡ bad_flags t8s.now place.w place.x place.y }
{
    !t8s.is_empty() && over_near(t8s, place, 1)
}

// Check 10 in a list that may be empty.
fn bad_list(list: &ReferenceList<'_>, blocks: Blocks) -> bool
    requires { 0 < length list.now.references.now → InGrids blocks.place.w blocks.place.x blocks.place.y (length list.now.references.now) }
    ensures { result ≡ some_read blocks.place.w blocks.place.x blocks.place.y (below_none list.now.references.now) }
{
    !list.references.is_empty() && some_read(blocks, &|i: usize| list.references[i] < -1)
}

// Check 22, of one entry of a table.
fn not_picture(p: i32) -> bool
    ensures { result ≡ not_picture p }
{
    (p < 0) | (65535 < p)
}

// .. of all.
#[tactic(auto, using(laws::proofs::Some::tests), unfolding(crate::specs::Checks::bad_table))]
fn bad_table(pictures: &[i32]) -> bool
    ensures { result ≡ bad_table pictures.now }
{
    any_bad(pictures, not_picture)
}

// Check 11.
#[tactic(auto, unfolding(crate::specs::Checks::disagree))]
fn disagreeing(inter: &[u8], blocks: Blocks) -> bool
    requires { InGrids blocks.place.w blocks.place.x blocks.place.y (length inter.now) }
    ensures { result ≡ disagree inter.now blocks.place.w blocks.place.x blocks.place.y }
{
    let at = blocks.origin();
    let stride = blocks.stride();
    let own = some_own(blocks.own(), &|i: usize| inter[i] != inter[at]);
    let left = some_beside(
        blocks.left_block(),
        &|i: usize| inter[i] != inter[at - 1],
        stride,
    );
    let above = some_beside(
        blocks.above_block(),
        &|i: usize| inter[i] != inter[at - stride],
        1,
    );
    own | left | above
}

// Check 7, of the blocks.
fn bad_inter(inter: &[u8], blocks: Blocks) -> bool
    requires { InGrids blocks.place.w blocks.place.x blocks.place.y (length inter.now) }
    ensures { result ≡ some_read blocks.place.w blocks.place.x blocks.place.y (λ i. ltb 1 (get_or inter.now i 0)) }
{
    some_read(blocks, &|i: usize| 1 < inter[i])
}

// Checks 7, 10, 22 and 11, which read values. None of them looks at counts or vectors.
pub fn check_values(blocks: Blocks, t8s: &[u8], g: &Grids<'_>) -> Result<(), Refusal>
    requires flags { eqb (length t8s.now) 0 ≡ false → InPicture blocks.place.w blocks.place.x blocks.place.y (length t8s.now) }
    requires inter { InGrids blocks.place.w blocks.place.x blocks.place.y (length g.now.inter.now) }
    requires list0 { InGrids blocks.place.w blocks.place.x blocks.place.y (length g.now.list0.references.now) }
    requires list1 { 0 < length g.now.list1.references.now → InGrids blocks.place.w blocks.place.x blocks.place.y (length g.now.list1.references.now) }
    ensures { number_of result ≡ refusal (value_checks_at blocks.place.w blocks.place.x blocks.place.y t8s.now (grids_of g.now)) }
{
    if bad_inter(g.inter, blocks) | bad_flags(t8s, blocks.place) {
        return Err(Refusal::Flag);
    }
    if bad_list(&g.list0, blocks) | bad_list(&g.list1, blocks) {
        return Err(Refusal::Reference);
    }
    if bad_table(g.list0.pictures) | bad_table(g.list1.pictures) {
        return Err(Refusal::Picture);
    }
    if disagreeing(g.inter, blocks) {
        return Err(Refusal::Mixed);
    }
    Ok(())
}

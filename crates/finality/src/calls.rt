// The calls that tell which macroblocks are final. They read marks alone, ask nothing of their caller and
// write nothing.
// Kept: (1) x and y for a place: places outside the picture are refused with 2, and a `Place` there would
// have a width of its own beside the picture's; (4) checks 1 and 2 stand where the list of a call begins
// (`place_checks`): a function for both would cut each list in two for a proof.
ghost use Rattle.std.specs.Prelude.{◌≡◌, true, cond, ◌&&◌, ◌||◌, ◌<◌, eqb, ltb, length, get_or};
ghost use Rattle.laws.specs.Refusal.{refusal};
ghost use Rattle.refusals.specs.Refusals.{number_of};
ghost use Rattle.finality.specs.Final.{place_checks, finality_answered, finality_of, all_answered, finals_of};

use crate::MadeFinal;
use refusals::Refusal;
use sizes::{Size, bad_size};

// Checks 1, 2 and 4.
fn check_place(size: Size, x: usize, y: usize, marks: usize) -> Result<(), Refusal>
    ensures { number_of result ≡ refusal (place_checks size marks x y) }
{
    if bad_size(size) {
        return Err(Refusal::Size);
    }
    if size.w <= x || size.h <= y {
        return Err(Refusal::Outside);
    }
    if marks != size.count() {
        return Err(Refusal::Grids);
    }
    Ok(())
}

// The mark at i, where there is one; else 1, since nothing has to be waited for. Kept: (4) a flag for an
// Option of the place: a `Place` tells of no right and no lower neighbour, and `bad_before` of sizes answers
// whether an entry is bad, while check 7 and the answer both read these marks.
fn mark_if(there: bool, marks: &[u8], i: usize) -> u8
    requires { there ≡ true → i < length marks.now }
    ensures { result ≡ cond there (get_or marks.now i 0) 1 }
{
    if there { marks[i] } else { 1 }
}

// Check 7, of the three marks that are asked about.
fn is_one_unknown(own: u8, right: u8, lower: u8) -> bool
    ensures { result ≡ (ltb 1 own || ltb 1 right || ltb 1 lower) }
{
    1 < own || 1 < right || 1 < lower
}

fn are_set(own: u8, right: u8, lower: u8) -> bool
    ensures { result ≡ (eqb own 1 && eqb right 1 && eqb lower 1) }
{
    own == 1 && right == 1 && lower == 1
}

// Is (x, y) final?
pub fn is_final(size: Size, x: usize, y: usize, marks: &[u8]) -> Result<bool, Refusal>
    ensures { finality_answered result ≡ finality_of size marks.now x y }
{
    check_place(size, x, y, marks.len())?;
    let i = y * size.w + x;
    let own = marks[i];
    let right = mark_if(x + 1 < size.w, marks, i + 1);
    let lower = mark_if(y + 1 < size.h, marks, i + size.w);
    if is_one_unknown(own, right, lower) {
        return Err(Refusal::Flag);
    }
    Ok(are_set(own, right, lower))
}

// What a visit of (x, y) has made final, asked with the marks that it left: itself, its left, its upper
// neighbour? Each is asked about where it exists.
pub fn made_final(size: Size, x: usize, y: usize, marks: &[u8]) -> Result<MadeFinal, Refusal>
    ensures { all_answered result ≡ finals_of size marks.now x y }
{
    let own = is_final(size, x, y, marks)?;
    let left = 0 < x && is_final(size, x - 1, y, marks)?;
    let upper = 0 < y && is_final(size, x, y - 1, marks)?;
    Ok(MadeFinal { own, left, upper })
}

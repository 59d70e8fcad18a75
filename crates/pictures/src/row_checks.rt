// The checks of rows a to b of a picture.
// Kept: (1) a and b for a range: calls answer 2 of one that ends before it begins (`bad_range`), and
// `row_answer` names both; (4) that grids hold what is read is a fact of two values, by one name
// (`GridsHold`).
ghost use Rattle.std.specs.Prelude.{◌≡◌, false, ◌*◌, ◌≤◌, ◌++◌, eqb, length};
ghost use Rattle.laws.specs.Refusal.{refusal};
ghost use Rattle.edges.specs.LentPlanes.{samples};
ghost use Rattle.refusals.specs.Refusals.{number_of};
ghost use Rattle.slices.specs.Inner.{NumbersHold};
ghost use Rattle.slices.specs.LentSlicing.{slicing_of};
ghost use Rattle.slices.specs.Slicing.{some_bad_number};
ghost use Rattle.pictures.specs.Checks.{bad_qp, some_bad};
ghost use Rattle.pictures.specs.Inner.{GridsHold, row_entry_checks};
ghost use Rattle.pictures.specs.LentData.{given};
ghost use Rattle.pictures.specs.Rows.{qps_from, row_answer};

use crate::Lent;
use crate::checks::{BadEntries, any_bad_flag, any_bad_strength, check_picture};
use edges::Planes;
use refusals::Refusal;
use sizes::entries::any_bad;
use sizes::{Picture, Size};
use slices::Slicing;

// The first macroblock whose QP rows a to b read.
fn qps_from(w: usize, a: usize, b: usize) -> usize
    requires { a * w ≤ 36864 }
    ensures { result ≡ qps_from w a b }
{
    if (0 < a) & (a < b) {
        return a * w - w;
    }
    a * w
}

// Check 8, of macroblocks a to b.
fn any_bad_qp(qps: &[u8], a: usize, b: usize) -> bool
    requires { (a ≤ b) × (b ≤ length qps.now) }
    ensures { result ≡ some_bad bad_qp a b qps.now }
{
    any_bad(&qps[a..b], |qp| 51 < qp)
}

// Check 20, of macroblocks a to b: a number is past the table. Kept: (4) beside `bad_numbers` of visits, with
// the reason there.
fn any_bad_number(slicing: &Slicing<'_>, a: usize, b: usize) -> bool
    requires { (a ≤ b) × NumbersHold b (slicing_of slicing.now) }
    ensures { result ≡ some_bad_number (slicing_of slicing.now) (λ bad xs. some_bad bad a b xs) }
{
    match slicing {
        Slicing::Single(_) => false,
        Slicing::Table {
            records,
            numbers,
            ..
        } => {
            let count = records.len();
            any_bad(&numbers[a..b], |number| count <= usize::from(number))
        }
    }
}

// Checks 7 to 9, 20 and 21, of rows a to b.
fn check_row_entries(size: Size, a: usize, b: usize, lent: &Lent<'_>) -> Result<(), Refusal>
    requires rows { (a ≤ b) × (b * size.w ≤ 36864) }
    requires grids { GridsHold (b * size.w) (given size lent.now) }
    ensures { number_of result ≡ refusal (row_entry_checks (given size lent.now) a b) }
{
    let w = size.w;
    let first = a * w;
    let last = b * w;
    let read_from = qps_from(w, a, b);
    let bad = BadEntries {
        flag: any_bad_flag(lent.grids.t8s, first, last),
        qp: any_bad_qp(lent.grids.qps, read_from, last),
        strength: any_bad_strength(lent.grids.strengths, first, last),
        number: any_bad_number(&lent.slicing, read_from, last),
        mode: lent.slicing.has_bad_mode(),
    };
    bad.check()
}

// All checks of rows a to b.
pub fn check_rows(
    picture: Picture,
    a: usize,
    b: usize,
    planes: &Planes<'_>,
    lent: &Lent<'_>,
) -> Result<(), Refusal>
    ensures { number_of result ≡ row_answer picture.part (given picture.size lent.now) a b (samples planes.now) }
{
    let size = picture.size;
    check_picture(picture, (b < a) | (size.h < b), planes)?;
    lent.check_grids(size.count(), false, lent.slicing.has_bad_offset())?;
    check_row_entries(size, a, b, lent)
}

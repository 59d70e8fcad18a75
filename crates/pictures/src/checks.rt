// Checks that the filtering calls share, in the order of their numbers.
// Kept: (4) that a count of macroblocks is at most 36864 is asked where it is a parameter: a type for it
// would be made at each call, to be taken apart in each function; (4) checks 1 and 2 stand where the list of
// a call begins (`picture_checks`): a function for both would cut each list in two for a proof; (1) a and b
// for a range: `some_bad_flag` and `some_bad_strength` count from a to b.
ghost use Rattle.std.specs.Prelude.{◌≡◌, false, [], ◌∷◌, ◌||◌, ◌*◌, ◌≤◌, eqb, length};
ghost use Rattle.laws.specs.Refusal.{refusal};
ghost use Rattle.refusals.specs.Refusals.{number_of};
ghost use Rattle.sizes.specs.Sizes.{frame_of_part};
ghost use Rattle.slices.specs.LentSlicing.{slicing_of};
ghost use Rattle.slices.specs.Slicing.{bad_number_count};
ghost use Rattle.pictures.specs.Checks.{bad_lent, some_bad_flag, some_bad_strength, picture_checks, grid_checks};

use crate::Lent;
use edges::Planes;
use refusals::Refusal;
use sizes::entries::{any_bad, bad_flag_count};
use sizes::{Part, Picture, bad_parity, bad_planes, bad_size};

// How many macroblocks the planes have that a picture of n is part of.
fn frame_of_part(part: Part, n: usize) -> usize
    requires { n ≤ 36864 }
    ensures { result ≡ frame_of_part part n }
{
    match part {
        Part::Frame => n,
        Part::Field(_) => 2 * n,
    }
}

// Checks 1, 2, 19 and 3. `outside`: check 2 applies.
pub fn check_picture(picture: Picture, outside: bool, planes: &Planes<'_>) -> Result<(), Refusal>
    ensures { number_of result ≡ refusal (picture_checks picture.part picture.size outside (length planes.now.luma.now) (length planes.now.u.now) (length planes.now.v.now)) }
{
    let size = picture.size;
    if bad_size(size) {
        return Err(Refusal::Size);
    }
    if outside {
        return Err(Refusal::Outside);
    }
    if bad_parity(picture.part) {
        return Err(Refusal::Parity);
    }
    let n = frame_of_part(picture.part, size.count());
    if bad_planes(n, planes.luma.len(), planes.u.len(), planes.v.len()) {
        return Err(Refusal::Planes);
    }
    Ok(())
}

impl Lent<'_> {
    // Check 4: lengths of the grids by macroblock.
    fn has_bad_lengths(&self, n: usize) -> bool
        requires { n ≤ 36864 }
        ensures { result ≡ bad_lent n (length self.now.grids.strengths.now) (length self.now.grids.qps.now) (length self.now.grids.t8s.now) }
    {
        let grids = &self.grids;
        (grids.strengths.len() != 32 * n)
            | (grids.qps.len() != n)
            | bad_flag_count(n, grids.t8s.len())
    }

    // Checks 4 to 6, of n macroblocks. `other`: a grid that the call alone is lent has the wrong length;
    // `six`: check 6 applies, of which a call that looks at the same slices often has asked once.
    pub fn check_grids(&self, n: usize, other: bool, six: bool) -> Result<(), Refusal>
        requires { n ≤ 36864 }
        ensures { number_of result ≡ refusal (grid_checks n (length self.now.grids.strengths.now) (length self.now.grids.qps.now) (length self.now.grids.t8s.now) (bad_number_count (slicing_of self.now.slicing) n || other) six) }
    {
        if self.has_bad_lengths(n) | self.slicing.has_bad_count(n) | other {
            return Err(Refusal::Grids);
        }
        if six {
            return Err(Refusal::Offset);
        }
        Ok(())
    }
}

// Of the entries that a call reads, whether one is bad: a flag or a mark, a QP, a strength, a slice number;
// and whether a record's mode is.
#[derive(Clone, Copy, Debug, PartialEq, Eq)]
pub struct BadEntries {
    pub flag: bool,
    pub qp: bool,
    pub strength: bool,
    pub number: bool,
    pub mode: bool,
}

impl BadEntries {
    // Checks 7 to 9, 20 and 21. All is looked at before the first of them, so a call that is refused by one
    // takes no longer than its checks do where it is served.
    pub fn check(self) -> Result<(), Refusal>
        ensures { number_of result ≡ refusal ((7, self.flag) ∷ (8, self.qp) ∷ (9, self.strength) ∷ (20, self.number) ∷ (21, self.mode) ∷ []) }
    {
        if self.flag {
            return Err(Refusal::Flag);
        }
        if self.qp {
            return Err(Refusal::Qp);
        }
        if self.strength {
            return Err(Refusal::Strength);
        }
        if self.number {
            return Err(Refusal::SliceNumber);
        }
        if self.mode {
            return Err(Refusal::SliceMode);
        }
        Ok(())
    }
}

// Check 7, of the flags of macroblocks a to b.
pub fn any_bad_flag(t8s: &[u8], a: usize, b: usize) -> bool
    requires { (a ≤ b) × (eqb (length t8s.now) 0 ≡ false → b ≤ length t8s.now) }
    ensures { result ≡ some_bad_flag a b t8s.now }
{
    if t8s.len() == 0 {
        return false;
    }
    any_bad(&t8s[a..b], |flag| 1 < flag)
}

// Check 9, of the strengths of macroblocks a to b.
pub fn any_bad_strength(strengths: &[u8], a: usize, b: usize) -> bool
    requires { (a ≤ b) × (b ≤ 36864) × (32 * b ≤ length strengths.now) }
    ensures { result ≡ some_bad_strength a b strengths.now }
{
    any_bad(&strengths[32 * a..32 * b], |strength| 4 < strength)
}

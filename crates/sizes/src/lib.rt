// A picture's size, which lines of the planes it has, entries of its grids by macroblock, and checks of all
// three that several calls make. Whatever speaks of pictures stands on this crate. Kept: (4) checks as free
// functions, of a struct too: each has its definition's name, as `bad_planes` has, which is of no struct.
#![tactic(auto)]

ghost use Rattle.std.specs.Prelude.{◌≡◌, false, ◌*◌, ◌≤◌};
ghost use Rattle.sizes.specs.Sizes.{bad_size, bad_parity, bad_planes};

pub mod entries;
pub mod places;

// Width and height in macroblocks.
#[derive(Clone, Copy, Debug, PartialEq, Eq)]
pub struct Size {
    pub w: usize,
    pub h: usize,
}

impl Size {
    // The number of macroblocks of a picture that passes check 1.
    pub fn count(self) -> usize
        requires { bad_size self ≡ false }
        ensures { result ≡ self.w * self.h }
    {
        self.w * self.h
    }
}

// Which part of a frame's planes a picture is: the frame itself, or the field of a parity, which is a picture
// of its own on every second line: 0 the even lines, 1 the odd ones. Kept: (1) a parity as a number: calls
// answer 19 of one that no field has (`bad_parity`), and an enum would ask their callers for a good one.
#[derive(Clone, Copy, Debug, PartialEq, Eq)]
pub enum Part {
    Frame,
    Field(u8),
}

// A picture of a frame's planes: its size, and which lines of theirs it has.
#[derive(Clone, Copy, Debug, PartialEq, Eq)]
pub struct Picture {
    pub size: Size,
    pub part: Part,
}

// Check 19.
pub fn bad_parity(part: Part) -> bool
    ensures { result ≡ bad_parity part }
{
    match part {
        Part::Frame => false,
        Part::Field(parity) => 1 < parity,
    }
}

// Check 1.
pub fn bad_size(size: Size) -> bool
    ensures { result ≡ bad_size size }
{
    let w = size.w;
    let h = size.h;
    if (w == 0) | (256 < w) | (h == 0) | (256 < h) {
        return true;
    }
    36864 < w * h
}

// Check 3: lengths of planes, for n macroblocks.
pub fn bad_planes(n: usize, luma: usize, u: usize, v: usize) -> bool
    requires { n ≤ 73728 }
    ensures { result ≡ bad_planes n luma u v }
{
    (luma != 256 * n) | (u != 64 * n) | (v != 64 * n)
}

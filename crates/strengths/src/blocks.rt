// The 4x4 blocks of a macroblock.
ghost use Rattle.std.specs.Prelude.{◌≡◌, ◌+◌, ◌*◌, ◌<◌, ltb};
ghost use Rattle.sizes.specs.Inner.{neighbour};
ghost use Rattle.strengths.specs.Blocks.{origin};
ghost use Rattle.strengths.specs.Inner.{InGrids};

use sizes::places::Place;

// 16 blocks of a grid in four rows of four, wherever they stand: the first, and the distance from a row to
// the next.
#[derive(Clone, Copy, Debug, PartialEq, Eq)]
pub struct Square {
    pub at: usize,
    pub stride: usize,
}

impl Square {
    // The one in row r and column c of them.
    pub fn entry_at(self, r: usize, c: usize) -> usize
        requires { (r < 4) × (c < 4) × (self.at + 3 * self.stride + 3 < 18446744073709551616) }
        ensures { result ≡ self.at + r * self.stride + c }
    {
        self.at + r * self.stride + c
    }
}

// The 16 blocks of a macroblock of a picture no larger than pictures may be, as grids of blocks have them.
#[derive(Clone, Copy, Debug, PartialEq, Eq)]
pub struct Blocks {
    pub place: Place,
    pub ghost is_small: { InGrids place.w place.x place.y 589824 },
}

impl Blocks {
    // The first of them.
    pub fn origin(self) -> usize
        ensures { result ≡ 16 * (self.place.y * self.place.w) + 4 * self.place.x }
    {
        16 * (self.place.y * self.place.w) + 4 * self.place.x
    }

    // All of them.
    pub fn own(self) -> Square
        ensures { result ≡ record { at = origin self.place.w self.place.x self.place.y; stride = 4 * self.place.w } }
    {
        Square {
            at: self.origin(),
            stride: self.stride(),
        }
    }

    // The first of the four beside them, where there is a neighbour: to the left,
    pub fn left_block(self) -> Option<usize>
        ensures { result ≡ neighbour (ltb 0 self.place.x) (origin self.place.w self.place.x self.place.y) 1 }
    {
        (0 < self.place.x).then(|| self.origin() - 1)
    }

    // .. above.
    pub fn above_block(self) -> Option<usize>
        ensures { result ≡ neighbour (ltb 0 self.place.y) (origin self.place.w self.place.x self.place.y) (4 * self.place.w) }
    {
        (0 < self.place.y).then(|| self.origin() - self.stride())
    }

    // The number of blocks in a row of the picture.
    pub fn stride(self) -> usize
        ensures { result ≡ 4 * self.place.w }
    {
        4 * self.place.w
    }
}

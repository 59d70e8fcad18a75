// Where a macroblock stands in its picture, and where its neighbours do.
// Kept: (4) that a place's number fits is asked by its four methods, whose callers know more: that the grid
// in question has the place. A ghost field for it would be owed wherever a place is made, at more places.
ghost use Rattle.std.specs.Prelude.{◌≡◌, ◌&&◌, ◌+◌, ◌*◌, ◌<◌, ◌-◌, ltb};
ghost use Rattle.sizes.specs.Inner.{neighbour};

// Macroblock (x, y) of a picture of w columns.
#[derive(Clone, Copy, Debug, PartialEq, Eq)]
pub struct Place {
    pub w: usize,
    pub x: usize,
    pub y: usize,
}

impl Place {
    // Its number in raster order, the address, by which grids have its entry.
    pub fn address(self) -> usize
        requires { self.y * self.w + self.x < 18446744073709551616 }
        ensures { result ≡ self.y * self.w + self.x }
    {
        self.y * self.w + self.x
    }

    // The number of a neighbour, where there is one: to the left,
    pub fn left(self) -> Option<usize>
        requires { self.y * self.w + self.x < 18446744073709551616 }
        ensures { result ≡ neighbour (ltb 0 self.x) (self.y * self.w + self.x) 1 }
    {
        (0 < self.x).then(|| self.address() - 1)
    }

    // .. above,
    pub fn upper(self) -> Option<usize>
        requires { self.y * self.w + self.x < 18446744073709551616 }
        ensures { result ≡ neighbour (ltb 0 self.y) (self.y * self.w + self.x) self.w }
    {
        (0 < self.y).then(|| self.address() - self.w)
    }

    // .. above and to the right.
    pub fn upper_right(self) -> Option<usize>
        requires column { self.x < self.w }
        requires small { self.y * self.w + self.x < 18446744073709551616 }
        ensures { result ≡ neighbour (ltb 0 self.y && ltb (self.x + 1) self.w) (self.y * self.w + self.x) (self.w - 1) }
    {
        ((0 < self.y) & (self.x + 1 < self.w)).then(|| self.address() - (self.w - 1))
    }
}

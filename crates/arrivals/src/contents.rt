// What the pictures hold. U and V are filled differently, so that samples of one that end in the other show.
ghost use Rattle.std.specs.Prelude.{◌<◌, ◌≤◌};

use edges::{MbGrids, Offsets, Planes};
use std::array;

// The most macroblocks of a frame and of a picture that are replayed: what is held has the room for so many,
// and calls are lent what fewer need of it.
const MOST_OF_FRAME: usize = 8;

const MOST_OF_PICTURE: usize = 4;

// Flat macroblocks 100 103 above 105 104.
fn flat(i: usize) -> u8 {
    let upper = i < 512;
    let right = 16 <= i % 32;
    match (upper, right) {
        (true, false) => 100,
        (true, true) => 103,
        (false, false) => 105,
        (false, true) => 104,
    }
}

// .. with strength 1 on each edge between two of them.
fn outer(i: usize) -> u8 {
    let k = i % 32;
    let left = k < 4 && 32 <= i % 64;
    let top = (16..20).contains(&k) && 64 <= i;
    u8::from(left || top)
}

// Numbers that repeat after a time: `step` more from one to the next, `down` more from line to line, counted
// round at `modulus`, on top of `least`.
struct Pattern {
    period: usize,
    width: usize,
    step: usize,
    down: usize,
    modulus: usize,
    least: u8,
}

// Every strength, differences below and above the thresholds.
const LUMA: Pattern = Pattern {
    period: 2048,
    width: 32,
    step: 37,
    down: 11,
    modulus: 23,
    least: 60,
};

const U: Pattern = Pattern {
    period: 512,
    width: 16,
    step: 13,
    down: 5,
    modulus: 9,
    least: 120,
};

const V: Pattern = Pattern {
    period: 512,
    width: 16,
    step: 7,
    down: 3,
    modulus: 8,
    least: 90,
};

const STRENGTHS: Pattern = Pattern {
    period: 128,
    width: 32,
    step: 3,
    down: 1,
    modulus: 5,
    least: 0,
};

const BOTTOM_STRENGTHS: Pattern = Pattern {
    period: 128,
    width: 16,
    step: 2,
    down: 1,
    modulus: 5,
    least: 0,
};

impl Pattern {
    // Kept: (4) the cast loses nothing, which `try_from` would have to be told anew.
    fn at(&self, i: usize) -> u8
        requires { (0 < self.now.period) × (self.now.period ≤ 2048) × (0 < self.now.width) × (self.now.step < 64) × (self.now.down < 64) × (0 < self.now.modulus) × (self.now.modulus < 64) × (self.now.least < 128) }
    {
        let j = i % self.period;
        let more = (j * self.step + j / self.width * self.down) % self.modulus;
        self.least + more as u8
    }
}

// The picture of the old release's fault, one that is mixed, and one that is mixed otherwise. Of an
// interlaced frame the planes and the top field are as the second, the bottom field is as the third.
#[derive(Clone, Copy, Debug, PartialEq, Eq)]
pub enum Content {
    Flat,
    Mixed,
    Bottom,
}

impl Content {
    // A sample, flat or mixed.
    fn sample(self, flat: u8, mixed: u8) -> u8 {
        match self {
            Content::Flat => flat,
            Content::Mixed | Content::Bottom => mixed,
        }
    }

    fn strength(self, i: usize) -> u8 {
        match self {
            Content::Flat => outer(i),
            Content::Mixed => STRENGTHS.at(i),
            Content::Bottom => BOTTOM_STRENGTHS.at(i),
        }
    }

    // Planes are filled where they lie: a frame that is handed back takes its room more than once.
    pub fn fill(self, planes: &mut Planes<'_>) {
        let Planes { luma, u, v } = planes;
        for (i, sample) in luma.iter_mut().enumerate() {
            *sample = self.sample(flat(i), LUMA.at(i));
        }
        for (i, sample) in u.iter_mut().enumerate() {
            *sample = self.sample(128, U.at(i));
        }
        for (i, sample) in v.iter_mut().enumerate() {
            *sample = self.sample(127, V.at(i));
        }
    }

    pub fn grids(self) -> Grids {
        let (qps, t8s) = match self {
            Content::Flat => ([40, 40, 40, 40], [0, 0, 0, 0]),
            Content::Mixed => ([30, 36, 41, 45], [0, 1, 0, 1]),
            Content::Bottom => ([44, 33, 38, 35], [1, 0, 0, 1]),
        };
        Grids {
            strengths: array::from_fn(|i| self.strength(i)),
            qps,
            t8s,
        }
    }

    pub fn offsets(self) -> Offsets {
        match self {
            Content::Flat => Offsets {
                a: 0,
                b: 0,
                chroma_u: 0,
                chroma_v: 0,
            },
            Content::Mixed => Offsets {
                a: 2,
                b: -3,
                chroma_u: 1,
                chroma_v: 1,
            },
            Content::Bottom => Offsets {
                a: -1,
                b: 4,
                chroma_u: -2,
                chroma_v: 3,
            },
        }
    }
}

// A frame's planes, as long as the largest frame needs them. Kept: (4) beside the `Frame` of recordings: that
// one is read from a file, this one is made and lent to be changed; what they share is three names.
#[derive(Drop)]
pub struct Frame {
    luma: [u8; 256 * MOST_OF_FRAME],
    u: [u8; 64 * MOST_OF_FRAME],
    v: [u8; 64 * MOST_OF_FRAME],
}

impl Frame {
    pub const BLANK: Frame = Frame {
        luma: [0; 256 * MOST_OF_FRAME],
        u: [0; 64 * MOST_OF_FRAME],
        v: [0; 64 * MOST_OF_FRAME],
    };

    // Of n macroblocks, as calls are lent them.
    pub fn planes(&mut self, n: usize) -> Planes<'_> {
        let n = n.min(MOST_OF_FRAME);
        let Frame { luma, u, v } = self;
        Planes {
            luma: &mut luma[..256 * n],
            u: &mut u[..64 * n],
            v: &mut v[..64 * n],
        }
    }
}

// A picture's grids, as long as the largest picture needs them.
#[derive(Drop)]
pub struct Grids {
    strengths: [u8; 32 * MOST_OF_PICTURE],
    qps: [u8; MOST_OF_PICTURE],
    t8s: [u8; MOST_OF_PICTURE],
}

impl Grids {
    // Of n macroblocks, as calls are lent them. Kept: (4) beside `Held::loaded` of recordings, which lends
    // slices too; what they share is three names.
    pub fn lent(&self, n: usize) -> MbGrids<'_> {
        let n = n.min(MOST_OF_PICTURE);
        MbGrids {
            strengths: &self.strengths[..32 * n],
            qps: &self.qps[..n],
            t8s: &self.t8s[..n],
        }
    }
}

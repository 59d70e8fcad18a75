// How a recording is filtered anew, and which macroblock is visited in which turn (specs/Ways).
// Kept: (1) a way as an enum, the whole picture among them, which is no order of visits: `filtered`,
// `visits_to` and `Becomes` (specs/Orders) and `count_of` say by it what comes out; (4) that a turn is below
// 14400, as in both.rt.
ghost use Rattle.std.specs.Prelude.{◌≡◌, ◌<◌, ◌≤◌};
ghost use Rattle.recordings.specs.Ways.{is_whole, count_of, visited_in, turns_of};

// By the call for a whole picture, or by visits in raster order, from the last macroblock to the first, or in
// leaps of 131: a prime above 120, so that each pass has every macroblock.
#[derive(Clone, Copy, Debug, PartialEq, Eq)]
pub enum Way {
    Whole,
    Raster,
    Reverse,
    Leaps,
}

impl Way {
    pub fn is_whole(self) -> bool
        ensures { result ≡ is_whole self }
    {
        matches!(self, Way::Whole)
    }

    fn count(self, t: usize) -> usize
        requires { t < 14400 }
        ensures upper_bound { result ≤ 1886400 }
        ensures value { result ≡ count_of self t }
    {
        match self {
            Way::Whole | Way::Raster => t,
            Way::Reverse => 14399 - t,
            Way::Leaps => 131 * t,
        }
    }

    // The macroblock that is visited in turn t, or, `ahead`, the one half a picture further on.
    pub fn place(self, t: usize, ahead: bool, n: usize) -> usize
        requires { t < 14400 }
        ensures { result ≡ visited_in self t ahead n }
    {
        let further = if ahead { n / 2 } else { 0 };
        (self.count(t) + further).checked_rem(n).unwrap_or(0)
    }
}

// 120 passes over n macroblocks, n being 120 at most: where one is left, each pass visits one more at least,
// so n passes are enough. None where n is above 120.
pub fn turns(n: usize) -> usize
    ensures upper_bound { result ≤ 14400 }
    ensures value { result ≡ turns_of n }
{
    if n <= 120 { 120 * n } else { 0 }
}

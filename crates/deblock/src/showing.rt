// The calls that tell which macroblocks are final, for C.
// Kept: (1) flat parameters, numbers for answers, one function a call: the C interface.
ghost use Rattle.std.specs.Prelude.{◌≡◌};
ghost use Rattle.finality.specs.Final.{finality_of, finals_of};
ghost use Rattle.deblock.specs.Numbers.{size_of};

use finality::calls::{is_final, made_final};
use finality::{Finality, Finals};
use sizes::Size;

// Is one macroblock final?
pub fn deblock_is_final(w: usize, h: usize, x: usize, y: usize, marks: &[u8]) -> Finality
    ensures { result ≡ finality_of (size_of w h) marks.now x y }
{
    let size = Size { w, h };
    is_final(size, x, y, marks).into()
}

// What a visit has made final.
pub fn deblock_made_final(w: usize, h: usize, x: usize, y: usize, marks: &[u8]) -> Finals
    ensures { result ≡ finals_of (size_of w h) marks.now x y }
{
    let size = Size { w, h };
    made_final(size, x, y, marks).into()
}

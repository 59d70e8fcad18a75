// The calls that tell which macroblocks are final, for C.
// Kept: (1) flat parameters, numbers for answers, one function a call: the C interface.
ghost use Rattle.std.specs.Prelude.{◌≡◌};
ghost use Rattle.finality.specs.Final.{finality_of, finals_of};
ghost use Rattle.deblock.specs.Numbers.{size_of};

use finality::{Finality, Finals};

// Is one macroblock final?
#[unsafe(no_mangle)]
pub extern "C" fn deblock_is_final(w: usize, h: usize, x: usize, y: usize, marks: &[u8]) -> Finality
    ensures { result ≡ finality_of (size_of w h) marks.now x y }
{
    deblock::showing::deblock_is_final(w, h, x, y, marks)
}

// What a visit has made final.
#[unsafe(no_mangle)]
pub extern "C" fn deblock_made_final(w: usize, h: usize, x: usize, y: usize, marks: &[u8]) -> Finals
    ensures { result ≡ finals_of (size_of w h) marks.now x y }
{
    deblock::showing::deblock_made_final(w, h, x, y, marks)
}

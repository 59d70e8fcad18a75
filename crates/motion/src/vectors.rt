// The far test on two components of vectors: one wrapping add and one comparison on the unsigned difference.
// Kept: (2) by std's `abs_diff` strengths of two lists took up to a tenth longer, above three bounds of the
// clock.
ghost use Rattle.std.specs.Prelude.{◌≡◌, ◌≤◌, pos, ◌+ℤ◌, ◌-ℤ◌};
ghost use Rattle.motion.specs.Far.{outside};

// A component raised by 32,768, which leaves no negative number.
fn raised(c: i16) -> u32
    ensures { (pos result ≡ c +ℤ pos 32768) × (result ≤ 65536) }
{
    (i32::from(c) + 32768) as u32
}

// Far: the difference, over whole numbers, is below -most or above most. At 3 the test is 7 <= d + 3: from -3
// to 3 the sum is 0 to 6.
pub fn far(most: u8, a: i16, b: i16) -> bool
    ensures { result ≡ outside most (a -ℤ b) }
{
    let m = u32::from(most);
    let d = std::num::wrapping_sub_u32(raised(a), raised(b));
    2 * m + 1 <= std::num::wrapping_add_u32(d, m)
}

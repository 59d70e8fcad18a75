// Walks over blocks, such as those that a macroblock's strengths read, for one whose index passes a test.
// None is left out where one was found, which costs least.
ghost use Rattle.std.specs.Prelude.{◌≡◌, ℕ, Bool, ◌+◌, ◌*◌, ◌<◌, IfSome};
ghost use Rattle.laws.specs.Some.{some};
ghost use Rattle.strengths.specs.Blocks.{some_read};
ghost use Rattle.strengths.specs.Inner.{beside};
ghost use Rattle.strengths.specs.Reads.{Beside};

use crate::blocks::{Blocks, Square};

// Four, `step` apart. Kept: (4) k is a block's number, by which its place is computed; no slice is gone over.
fn some_of_four<F: Fn(usize) -> bool>(test: &F, at: usize, step: usize) -> bool
    requires asked { (k : ℕ) → k < 4 → F.pre test.now (at + k * step) }
    requires small { at + 3 * step < 18446744073709551616 }
    ensures { (p : ℕ → Bool) → ((k : ℕ) (b : Bool) → k < 4 → F.post test.now (at + k * step) b → b ≡ p (at + k * step)) → result ≡ some 4 (λ k. p (at + k * step)) }
{
    let mut found = false;
    for k in 0..4usize {
        found |= test(at + k * step);
    }
    found
}

// Four rows of four, as those of a macroblock (`Blocks::own`). Kept: (4) r and c are a block's row and
// column, by which its place is computed; no slice is gone over.
pub fn some_own<F: Fn(usize) -> bool>(square: Square, test: &F) -> bool
    requires asked { (r c : ℕ) → r < 4 → c < 4 → F.pre test.now (square.at + r * square.stride + c) }
    requires small { square.at + 3 * square.stride + 3 < 18446744073709551616 }
    ensures { (p : ℕ → Bool) → ((r c : ℕ) (b : Bool) → r < 4 → c < 4 → F.post test.now (square.at + r * square.stride + c) b → b ≡ p (square.at + r * square.stride + c)) → result ≡ some 4 (λ r. some 4 (λ c. p (square.at + r * square.stride + c))) }
{
    let mut found = false;
    for r in 0..4usize {
        for c in 0..4usize {
            found |= test(square.entry_at(r, c));
        }
    }
    found
}

// The four beside it, where it has a neighbour: the first of them, and the others `step` apart. Kept: (3) by
// `is_some_and` it stayed open that what its closure answers is what the test says of the four.
pub fn some_beside<F: Fn(usize) -> bool>(first: Option<usize>, test: &F, step: usize) -> bool
    requires asked { IfSome first (λ i. (k : ℕ) → k < 4 → F.pre test.now (i + k * step)) }
    requires small { IfSome first (λ i. i + 3 * step < 18446744073709551616) }
    ensures { (p : ℕ → Bool) → IfSome first (λ i. (k : ℕ) (b : Bool) → k < 4 → F.post test.now (i + k * step) b → b ≡ p (i + k * step)) → result ≡ beside first (λ i. some 4 (λ k. p (i + k * step))) }
{
    match first {
        Some(at) => some_of_four(test, at, step),
        None => false,
    }
}

// All that a macroblock's strengths read.
pub fn some_read<F: Fn(usize) -> bool>(blocks: Blocks, test: &F) -> bool
    requires { (i : ℕ) → Beside blocks.place.w blocks.place.x blocks.place.y i → F.pre test.now i }
    ensures { (p : ℕ → Bool) → ((i : ℕ) (b : Bool) → Beside blocks.place.w blocks.place.x blocks.place.y i → F.post test.now i b → b ≡ p i) → result ≡ some_read blocks.place.w blocks.place.x blocks.place.y p }
{
    let own = some_own(blocks.own(), test);
    let left = some_beside(blocks.left_block(), test, blocks.stride());
    let above = some_beside(blocks.above_block(), test, 1);
    own | left | above
}

// Strengths of a macroblock, or of a row of them, from the 4x4 grids: ITU-T H.264, clause 8.7.2.1, with
// numbered refusals.
#![tactic(auto)]

use motion::grids::Grids;
use sizes::Size;

pub mod asks;
pub mod blocks;
pub mod calls;
pub mod checks;
pub mod derive;
pub mod eights;
pub mod fours;
pub mod kinds;
pub mod macroblocks;
pub mod own;
pub mod stored;
pub mod stretches;
pub mod walks;

// What strengths are derived from: a picture's size, whether it is a field, its 8x8 flags, of which there may
// be none, and its grids of blocks. Kept: (1) `field` and not a `Part`: `mode_of` of specs/ asks no more, and
// no strength call is told a parity, of which it would have to answer 19.
#[derive(Clone, Copy, Debug, PartialEq, Eq)]
pub struct Source<'a> {
    pub size: Size,
    pub field: bool,
    pub t8s: &'a [u8],
    pub grids: Grids<'a>,
}

// The motion of 4x4 blocks: vectors, the comparison of two blocks, and the grids that blocks are read from.
#![tactic(auto)]

pub mod blocks;
pub mod grids;
pub mod vectors;

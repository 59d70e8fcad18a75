// Pictures filtered by strengths, whole or by rows, with numbered refusals.
#![tactic(auto)]

use edges::MbGrids;
use slices::Slicing;

pub mod checks;
pub mod macroblocks;
pub mod row_checks;
pub mod rows;

// What is lent beside the planes, and only read.
#[derive(Clone, Copy, Debug, PartialEq, Eq)]
pub struct Lent<'a> {
    pub slicing: Slicing<'a>,
    pub grids: MbGrids<'a>,
}

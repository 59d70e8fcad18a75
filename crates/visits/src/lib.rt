// Visits: macroblocks filtered in the order in which they arrive, each once its left, upper and upper right
// neighbours have been.
#![tactic(auto)]

pub mod checks;
pub mod readiness;
pub mod surveyed;
pub mod visits;

// The lines of an edge, sixteen at a time. A batch of 8 rows of 16 samples is a plane of its own, with a line
// in each column: one luma edge, p3 in row 0 and q3 in row 7; or two chroma edges of both planes, p1 to q1 of
// the first in rows 0 to 3 and of the second in rows 4 to 7, U's lines in columns 0 to 7 and V's in 8 to 15.
// Lines are filtered by the functions of `narrow` and `lines`, lane beside lane, so that the compiler makes
// vector code of them. It does so where a function that handles a batch is called from one place only and
// inlined there; hence the const parameters, of which each instance has one caller (docs/SPEED.md).
// Kept: (4) luma and chroma have functions of their own: a batch is sixteen lines of one edge, or eight of
// each plane, so what lines are lent, how a batch is loaded and the rule of a line differ, not a type or a
// size.
#![tactic(auto)]

pub mod chroma;
pub mod chroma_passes;
pub mod lanes;
pub mod luma;
pub mod luma_passes;
pub mod moves;
pub mod moves_both;
pub mod places;

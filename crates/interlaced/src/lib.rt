// Interlaced frames: the two fields of a frame, each a picture of its own, visited in the order in which
// their macroblocks arrive.
#![tactic(auto)]

use edges::Planes;
use pictures::Lent;

pub mod both;

// A frame's planes, and the marks of its fields: of the top one, of parity 0, which has the even lines, and
// of the bottom one, of parity 1.
#[derive(Drop)]
pub struct Interlaced<'a> {
    pub frame: Planes<'a>,
    pub top: &'a mut [u8],
    pub bottom: &'a mut [u8],
}

// What is lent for each field, and only read.
#[derive(Clone, Copy, Debug, PartialEq, Eq)]
pub struct FieldsLent<'a> {
    pub top: Lent<'a>,
    pub bottom: Lent<'a>,
}

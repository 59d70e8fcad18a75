// Slices of a picture, each with a filter mode and offsets of its own: the table that is lent of them, and
// what a record says of a macroblock.
#![tactic(auto)]

use edges::Offsets;

pub mod record;
pub mod told;

// A slice's filter mode, its FilterOffsetA and its FilterOffsetB, laid out as C has it. Kept: (1) the mode is
// a number: the C interface has this struct, and check 21 (`bad_mode`) answers of any number.
#[repr(C)]
#[derive(Clone, Copy, Debug, PartialEq, Eq)]
pub struct SliceRecord {
    pub mode: u8,
    pub a: i8,
    pub b: i8,
}

// What filtering is told beside a table: chroma_qp_index_offset, which is U's, and
// second_chroma_qp_index_offset, which is V's. Kept: (4) no struct of any u and v: this one says of what they
// are, so that no other pair is passed for it, and `bad_chroma` and `offsets_with` name its members.
#[derive(Clone, Copy, Debug, PartialEq, Eq)]
pub struct ChromaOffsets {
    pub u: i32,
    pub v: i32,
}

// What a call is told of slices: one pair of offsets for the picture; or a table of records, used or not, and
// for each macroblock the number of its slice, by which the record is found.
#[derive(Clone, Copy, Debug, PartialEq, Eq)]
pub enum Slicing<'a> {
    Single(Offsets),
    Table {
        chroma: ChromaOffsets,
        records: &'a [SliceRecord],
        numbers: &'a [u16],
    },
}

// What the slices come to: whether an offset is out of range (6), and whether a record has an unknown mode
// (21). It is asked once where a call looks at the same slices often.
#[derive(Clone, Copy, Debug, PartialEq, Eq)]
pub struct Survey {
    pub bad_offset: bool,
    pub bad_mode: bool,
}

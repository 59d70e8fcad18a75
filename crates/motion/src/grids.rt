// A block is read from its picture's grids, and what its references name from the lists' tables.
// Kept: (1) arrays side by side, vectors as two numbers each, and -1 for no reference or picture: C lends
// them so, and `blk_at` of specs/ reads them so. (4) that grids or a list hold so many blocks (`HoldBlocks`,
// `HoldsOrEmpty`) is a fact of two values, by one name: callers ask it of different numbers.
ghost use Rattle.std.specs.Prelude.{◌≡◌, ◌+◌, ◌*◌, ◌<◌, ◌≤◌, length};
ghost use Rattle.motion.specs.Grids.{blk_at};
ghost use Rattle.motion.specs.Inner.{lone_strength, stored_of, list_motion, HoldsOrEmpty, HoldBlocks};
ghost use Rattle.motion.specs.Lent.{grids_of};
ghost use Rattle.motion.specs.Pictures.{picture_in, named_by};

use crate::blocks::{Blk, Motion, bs_one};

// One list's part of the grids: of each block a reference, -1 for none, and a vector as two numbers, x and y;
// and the list's table, from index to picture. All three may be empty.
#[derive(Clone, Copy, Debug, PartialEq, Eq)]
pub struct ReferenceList<'a> {
    pub references: &'a [i8],
    pub vectors: &'a [i16],
    pub pictures: &'a [i32],
}

// The grids of a picture's 4x4 blocks, in raster order: 1 where a block is inter, else 0; its coefficient
// count; and what each list holds.
#[derive(Clone, Copy, Debug, PartialEq, Eq)]
pub struct Grids<'a> {
    pub inter: &'a [u8],
    pub nnz: &'a [u8],
    pub list0: ReferenceList<'a>,
    pub list1: ReferenceList<'a>,
}

// The picture of an index by its list's table.
fn picture_in(pictures: &[i32], r: i32) -> i32
    ensures { result ≡ picture_in pictures.now r }
{
    match usize::try_from(r) {
        Ok(i) => pictures.get(i).copied().unwrap_or(-1),
        Err(_) => -1,
    }
}

// What a reference names: where there is no table, its own number.
#[tactic(auto, using(crate::proofs::Pictures::by_number, crate::proofs::Pictures::by_entry))]
fn named_by(pictures: &[i32], r: i32) -> i32
    ensures { result ≡ named_by pictures.now r }
{
    if pictures.is_empty() {
        return r;
    }
    picture_in(pictures, r)
}

// .. where there is one.
#[tactic(auto, using(crate::proofs::Pictures::by_entry))]
fn named_in(pictures: &[i32], r: i32) -> i32
    requires { 0 < length pictures.now }
    ensures { result ≡ named_by pictures.now r }
{
    picture_in(pictures, r)
}

impl ReferenceList<'_> {
    // What it holds of block i, by the number that is stored.
    pub fn stored(&self, i: usize) -> Motion
        requires { (i < length self.now.references.now) × (2 * i + 2 ≤ length self.now.vectors.now) }
        ensures { result ≡ stored_of self.now i }
    {
        Motion {
            reference: i32::from(self.references[i]),
            x: self.vectors[2 * i],
            y: self.vectors[2 * i + 1],
        }
    }

    // .. by the picture that the table names. Neither list nor table is empty.
    fn named(&self, i: usize) -> Motion
        requires held { (i < length self.now.references.now) × (2 * i + 2 ≤ length self.now.vectors.now) }
        requires table { 0 < length self.now.pictures.now }
        ensures { result ≡ list_motion self.now i }
    {
        let stored = self.stored(i);
        Motion {
            reference: named_in(self.pictures, stored.reference),
            ..stored
        }
    }

    // .. of any list.
    fn motion(&self, i: usize) -> Motion
        requires { HoldsOrEmpty self.now (i + 1) }
        ensures { result ≡ list_motion self.now i }
    {
        if self.references.is_empty() {
            return Motion::NONE;
        }
        let stored = self.stored(i);
        Motion {
            reference: named_by(self.pictures, stored.reference),
            ..stored
        }
    }

    // The strength between blocks p and q, both inter, that hold nothing in another list, by a list without a
    // table.
    pub fn bs_lone(&self, vertical: u8, coded: bool, p: usize, q: usize) -> u8
        requires p_in_bounds { (p < length self.now.references.now) × (2 * p + 2 ≤ length self.now.vectors.now) }
        requires q_in_bounds { (q < length self.now.references.now) × (2 * q + 2 ≤ length self.now.vectors.now) }
        ensures { result ≡ lone_strength vertical coded (stored_of self.now p) (stored_of self.now q) }
    {
        bs_one(vertical, coded, self.stored(p), self.stored(q))
    }
}

impl Grids<'_> {
    // Block i of two lists without tables,
    pub fn stored_block(&self, i: usize) -> Blk
        requires held { HoldBlocks (grids_of self.now) (i + 1) }
        requires second { 0 < length self.now.list1.references.now }
        requires no_tables { (length self.now.list0.pictures.now ≡ 0) × (length self.now.list1.pictures.now ≡ 0) }
        ensures { result ≡ blk_at (grids_of self.now) i }
    {
        Blk {
            inter: self.inter[i] == 1,
            list0: self.list0.stored(i),
            list1: self.list1.stored(i),
        }
    }

    // .. of two lists with tables,
    #[tactic(auto, unfolding(crate::specs::Grids::block_read))]
    pub fn named_block(&self, i: usize) -> Blk
        requires held { HoldBlocks (grids_of self.now) (i + 1) }
        requires second { 0 < length self.now.list1.references.now }
        requires tables { (0 < length self.now.list0.pictures.now) × (0 < length self.now.list1.pictures.now) }
        ensures { result ≡ blk_at (grids_of self.now) i }
    {
        Blk {
            inter: self.inter[i] == 1,
            list0: self.list0.named(i),
            list1: self.list1.named(i),
        }
    }

    // .. of any. It asks for each list whether it and its table are empty, which the two above need not.
    #[tactic(auto, unfolding(crate::specs::Grids::block_read))]
    pub fn block(&self, i: usize) -> Blk
        requires { HoldBlocks (grids_of self.now) (i + 1) }
        ensures { result ≡ blk_at (grids_of self.now) i }
    {
        Blk {
            inter: self.inter[i] == 1,
            list0: self.list0.motion(i),
            list1: self.list1.motion(i),
        }
    }
}

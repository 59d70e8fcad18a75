// The comparison of two blocks' motion, and the strength between two inter blocks (ITU-T H.264, clause
// 8.7.2.1). `vertical` is the most by which near vectors differ vertically: 3 in frames, 1 in fields.
// Horizontally it is always 3.
ghost use Rattle.std.specs.Prelude.{◌≡◌, if◌then◌else◌};
ghost use Rattle.motion.specs.Inner.{lone_strength};
ghost use Rattle.motion.specs.Motion.{is_used, if_used, mate, mismatched, differ, inter_strength, same_motion};

use crate::vectors::far;

// What a list holds of a block: a reference, below 0 for none, and a vector. Kept: (1) a number and not an
// `Option`: `blk_at` of specs/ has the number, and unused ones are compared by it too (`same_motion`).
#[derive(Clone, Copy, Debug, PartialEq, Eq)]
pub struct Motion {
    pub reference: i32,
    pub x: i16,
    pub y: i16,
}

// A 4x4 block: inter or not, and what each list holds of it.
#[derive(Clone, Copy, Debug, PartialEq, Eq)]
pub struct Blk {
    pub inter: bool,
    pub list0: Motion,
    pub list1: Motion,
}

impl Motion {
    // No reference, and the vector 0.
    pub const NONE: Motion = Motion {
        reference: -1,
        x: 0,
        y: 0,
    };

    // A reference below 0 is none.
    fn is_used(self) -> bool
        ensures { result ≡ is_used self }
    {
        0 <= self.reference
    }

    // One reference, and near.
    fn is_mate(self, vertical: u8, other: Motion) -> bool
        ensures { result ≡ mate vertical self other }
    {
        let far_x = far(3, self.x, other.x);
        let far_y = far(vertical, self.y, other.y);
        (self.reference == other.reference) & !(far_x | far_y)
    }

    // Compared as if a block held nothing else. Where neither is used they are not unlike.
    fn is_unlike(self, vertical: u8, other: Motion) -> bool
        ensures { result ≡ mismatched vertical (if_used self) (if_used other) }
    {
        (self.is_used() | other.is_used()) & !self.is_mate(vertical, other)
    }
}

impl Blk {
    // Whether the motion differs: it does list by list, and with the lists crossed. So the used references
    // need not be counted. Both are computed: a branch by the first would often be mistaken.
    pub fn differs(self, vertical: u8, q: Blk) -> bool
        ensures { result ≡ differ vertical self q }
    {
        let unlike_in_order = self.list0.is_unlike(vertical, q.list0)
            | self.list1.is_unlike(vertical, q.list1);
        unlike_in_order
            & (self.list0.is_unlike(vertical, q.list1) | self.list1.is_unlike(vertical, q.list0))
    }

    // The same motion in both lists, unused vectors included.
    #[tactic(auto, unfolding(crate::specs::Motion::same_motion))]
    pub fn has_same_motion(self, q: Blk) -> bool
        ensures { result ≡ same_motion self q }
    {
        (self.list0 == q.list0) & (self.list1 == q.list1)
    }
}

// The strength between two inter blocks, of which `coded` says whether one has coefficients: 2, 1 or 0.
#[tactic(auto, unfolding(crate::specs::Motion::inter_strength))]
pub fn bs_inter(vertical: u8, coded: bool, p: Blk, q: Blk) -> u8
    ensures { result ≡ inter_strength vertical coded p q }
{
    if coded {
        return 2;
    }
    u8::from(p.differs(vertical, q))
}

// 2 or else 1: as the larger of two numbers, since a branch by coefficients would often be mistaken.
fn graded(coded: bool, differs: bool) -> u8
    ensures { result ≡ (if coded then 2 else (if differs then 1 else 0)) }
{
    u8::from(differs).max(2 * u8::from(coded))
}

// The strength of two inter blocks that hold nothing in list 1, by what they hold in list 0.
pub fn bs_one(vertical: u8, coded: bool, p: Motion, q: Motion) -> u8
    ensures { result ≡ lone_strength vertical coded p q }
{
    graded(coded, p.is_unlike(vertical, q))
}

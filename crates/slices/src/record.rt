// What a slice's record says: checks 6 and 21 of it, and the settings of a macroblock of that slice. Check 6
// of the offsets that serve a whole picture stands with them.
// Kept: (1) a mode is compared with numbers, as `filters` and `filters_edge` do; (4) that a place lies in a
// grid is a fact of two values, by one name (`InPicture`).
ghost use Rattle.std.specs.Prelude.{◌≡◌, ◌<◌, IfSome, length};
ghost use Rattle.edges.specs.Picture.{entries};
ghost use Rattle.sizes.specs.Inner.{InPicture, is_at};
ghost use Rattle.slices.specs.Inner.{offsets_with, edges_by};
ghost use Rattle.slices.specs.Slicing.{filters, filters_edge};
ghost use Rattle.slices.specs.Table.{bad_offset, bad_offsets, bad_chroma, bad_pair, bad_mode};

use crate::{ChromaOffsets, SliceRecord};
use edges::{EdgesOn, Offsets};
use sizes::places::Place;

// Check 6, of one offset.
fn bad_offset(x: i32) -> bool
    ensures { result ≡ bad_offset x }
{
    (x < -12) | (12 < x)
}

// Check 6, of all offsets that serve a picture of one slice.
pub fn bad_offsets(o: Offsets) -> bool
    ensures { result ≡ bad_offsets o }
{
    bad_offset(o.a) | bad_offset(o.b) | bad_offset(o.chroma_u) | bad_offset(o.chroma_v)
}

impl ChromaOffsets {
    // Check 6, of the offsets beside a table.
    pub fn is_bad(self) -> bool
        ensures { result ≡ bad_chroma self }
    {
        bad_offset(self.u) | bad_offset(self.v)
    }
}

impl SliceRecord {
    // What stands for a record past the table. Check 20 refuses whoever would filter by it.
    pub const NONE: SliceRecord = SliceRecord {
        mode: 0,
        a: 0,
        b: 0,
    };

    // Check 6, of a record's offsets.
    pub fn has_bad_pair(self) -> bool
        ensures { result ≡ bad_pair self }
    {
        bad_offset(i32::from(self.a)) | bad_offset(i32::from(self.b))
    }

    // Check 21.
    pub fn has_bad_mode(self) -> bool
        ensures { result ≡ bad_mode self }
    {
        2 < self.mode
    }

    // The offsets of the slice's macroblocks.
    pub fn offsets_with(self, c: ChromaOffsets) -> Offsets
        ensures { result ≡ offsets_with self c }
    {
        Offsets {
            a: i32::from(self.a),
            b: i32::from(self.b),
            chroma_u: c.u,
            chroma_v: c.v,
        }
    }

    // Whether a macroblock's inner edges are filtered.
    fn filters_inside(self) -> bool
        ensures { result ≡ filters self }
    {
        self.mode != 1
    }

    // Whether the edge of macroblock i to a neighbour is filtered, where there is one.
    fn filters_toward(self, numbers: &[u16], i: usize, neighbour: Option<usize>) -> bool
        requires { (i < length numbers.now) × IfSome neighbour (λ j. j < length numbers.now) }
        ensures { result ≡ is_at (filters_edge self (entries numbers.now i)) 0 numbers.now neighbour }
    {
        neighbour.is_some_and(|j| {
            let other = numbers[j] != numbers[i];
            self.filters_inside() & !((self.mode == 2) & other)
        })
    }

    // Which edges of a macroblock are filtered, which is of the slice.
    pub fn edges_on(self, numbers: &[u16], place: Place) -> EdgesOn
        requires { InPicture place.w place.x place.y (length numbers.now) }
        ensures { result ≡ edges_by self numbers.now place.w place.x place.y }
    {
        let i = place.address();
        let left = self.filters_toward(numbers, i, place.left());
        let top = self.filters_toward(numbers, i, place.upper());
        let inner = self.filters_inside();
        EdgesOn { left, top, inner }
    }
}

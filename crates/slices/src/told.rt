// What a picture's slices come to: checks 4, 6 and 21 of them, and the settings of a macroblock.
// Kept: (4) that a place lies in a picture is a fact of two values, by one name (`InPicture`).
ghost use Rattle.std.specs.Prelude.{◌≡◌, ◌+◌, ◌*◌, ◌<◌, length};
ghost use Rattle.edges.specs.Alike.{every_edge};
ghost use Rattle.edges.specs.Picture.{entries};
ghost use Rattle.slices.specs.Inner.{OwnSettings, NumbersHold, survey_of_slices};
ghost use Rattle.slices.specs.LentSlicing.{slicing_of};
ghost use Rattle.slices.specs.Slicing.{bad_number_count, bad_slice_offset, bad_slice_mode};
ghost use Rattle.slices.specs.Table.{record_of, some_bad_pair, some_bad_mode};
ghost use Rattle.sizes.specs.Inner.{InPicture};

use crate::record::bad_offsets;
use crate::{SliceRecord, Slicing, Survey};
use edges::Settings;
use edges::picture::every_edge;
use sizes::entries::any_bad;
use sizes::places::Place;

// The record of number i, whatever the number is: past the table `SliceRecord::NONE`.
pub fn record_of(records: &[SliceRecord], i: usize) -> SliceRecord
    ensures { result ≡ record_of records.now i }
{
    records.get(i).copied().unwrap_or(SliceRecord::NONE)
}

// Check 6, of all records.
fn any_bad_pair(records: &[SliceRecord]) -> bool
    ensures { result ≡ some_bad_pair records.now }
{
    any_bad(records, |r| r.has_bad_pair())
}

// Check 21, of all records.
fn any_bad_mode(records: &[SliceRecord]) -> bool
    ensures { result ≡ some_bad_mode records.now }
{
    any_bad(records, |r| r.has_bad_mode())
}

impl Slicing<'_> {
    // Check 4: there is not one number for each of n macroblocks.
    pub fn has_bad_count(&self, n: usize) -> bool
        ensures { result ≡ bad_number_count (slicing_of self.now) n }
    {
        match self {
            Slicing::Single(_) => false,
            Slicing::Table { numbers, .. } => numbers.len() != n,
        }
    }

    // Check 6.
    pub fn has_bad_offset(&self) -> bool
        ensures { result ≡ bad_slice_offset (slicing_of self.now) }
    {
        match self {
            Slicing::Single(o) => bad_offsets(*o),
            Slicing::Table {
                chroma,
                records,
                ..
            } => chroma.is_bad() | any_bad_pair(records),
        }
    }

    // Check 21.
    pub fn has_bad_mode(&self) -> bool
        ensures { result ≡ bad_slice_mode (slicing_of self.now) }
    {
        match self {
            Slicing::Single(_) => false,
            Slicing::Table { records, .. } => any_bad_mode(records),
        }
    }

    // Checks 6 and 21, for a caller who asks them often of the same slices: they look at every record.
    pub fn survey(&self) -> Survey
        ensures { result ≡ survey_of_slices (slicing_of self.now) }
    {
        Survey {
            bad_offset: self.has_bad_offset(),
            bad_mode: self.has_bad_mode(),
        }
    }

    // What a macroblock is filtered with.
    pub fn settings_at(&self, place: Place) -> Settings
        requires { InPicture place.w place.x place.y 36864 × NumbersHold (place.y * place.w + place.x + 1) (slicing_of self.now) }
        ensures { OwnSettings (slicing_of self.now) place.w place.x place.y result.offsets result.on }
    {
        match self {
            Slicing::Single(o) => Settings {
                offsets: *o,
                on: every_edge(),
            },
            Slicing::Table {
                chroma,
                records,
                numbers,
            } => {
                let r = record_of(records, usize::from(numbers[place.address()]));
                Settings {
                    offsets: r.offsets_with(*chroma),
                    on: r.edges_on(numbers, place),
                }
            }
        }
    }
}

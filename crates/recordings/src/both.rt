// The pictures of a recording: one, the frame, or two, its fields. What is made of both, one after the other.
// Kept: (1) a way as an enum, as in ways.rt; (1) whether there are two pictures as a flag, and the number of
// macroblocks beside the size: `Recording`, `most_of`, `frames_of` and `first_part` of specs/Orders have them
// so; (4) that a turn is below 14400 is asked where one is made: `turns` promises it of the loop's counter,
// and a type for it would be made in each turn.
ghost use Rattle.std.specs.Prelude.{◌≡◌, ◌<◌, ◌≤◌};
ghost use Rattle.edges.specs.LentPlanes.{samples, SamePlanes};
ghost use Rattle.pictures.specs.LentData.{given};
ghost use Rattle.recordings.specs.Orders.{first_part, frames_of, most_of, turn_of, turn_in, whole_of, wholes};
ghost use Rattle.recordings.specs.Tried.{recording, tried, SameTried};

use crate::places::{column, row};
use crate::ways::Way;
use edges::Planes;
use pictures::Lent;
use pictures::rows::filter_whole;
use sizes::{Part, Picture, Size};
use visits::visits::visit;

// A recording: the size and the number of macroblocks of a picture, what is lent of the frame or of the top
// field, and of the bottom field where there are two.
#[derive(Clone, Copy, Debug, PartialEq, Eq)]
pub struct Recorded<'a> {
    pub size: Size,
    pub n: usize,
    pub first: Lent<'a>,
    pub second: Option<Lent<'a>>,
}

// The frame's planes as they are filtered anew, and the marks of each picture.
#[derive(Drop)]
pub struct Tried<'a> {
    pub planes: Planes<'a>,
    pub first: &'a mut [u8],
    pub second: &'a mut [u8],
}

// The most macroblocks that a picture may have: a frame has 120 at most.
pub fn most(two: bool) -> usize
    ensures { result ≡ most_of two }
{
    if two { 60 } else { 120 }
}

// The frame's macroblocks.
pub fn frames(two: bool, n: usize) -> usize
    requires { n ≤ most_of two }
    ensures lower_bound { (n ≤ result) × (result ≤ 120) }
    ensures value { result ≡ frames_of two n }
{
    if two { 2 * n } else { n }
}

fn first_part(two: bool) -> Part
    ensures { result ≡ first_part two }
{
    if two { Part::Field(0) } else { Part::Frame }
}

// A visit of one picture, in turn k. Kept: (4) what a turn is told of is no one thing: which visit (way, k,
// ahead), of which picture (part, lent), and what is filtered.
fn turn(
    way: Way,
    k: usize,
    ahead: bool,
    recorded: &Recorded<'_>,
    part: Part,
    lent: &Lent<'_>,
    planes: &mut Planes<'_>,
    marks: &mut [u8],
)
    requires { k < 14400 }
    ensures same { SamePlanes planes.old planes.new }
    ensures is { (samples planes.new, marks.new) ≡ turn_of way ahead part (given recorded.now.size lent.now) recorded.now.n k (samples planes.old, marks.old) }
{
    let size = recorded.size;
    let i = way.place(k, ahead, recorded.n);
    let x = column(i, size.w);
    let y = row(i, size.w);
    let _ = visit(Picture { size, part }, x, y, planes, lent, marks);
}

// A visit of the first picture, and one of the second where there is one.
pub fn turn_of_both(way: Way, k: usize, recorded: &Recorded<'_>, now: &mut Tried<'_>)
    requires { k < 14400 }
    ensures same { SameTried now.old now.new }
    ensures is { tried now.new ≡ turn_in way (recording recorded.now) k (tried now.old) }
{
    let part = first_part(recorded.second.is_some());
    turn(
        way,
        k,
        false,
        recorded,
        part,
        &recorded.first,
        &mut now.planes,
        now.first,
    );
    if let Some(lent) = &recorded.second {
        let bottom = Part::Field(1);
        turn(
            way,
            k,
            true,
            recorded,
            bottom,
            lent,
            &mut now.planes,
            now.second,
        );
    }
}

// The call for a whole picture.
fn whole(picture: Picture, planes: &mut Planes<'_>, lent: &Lent<'_>)
    ensures same { SamePlanes planes.old planes.new }
    ensures is { samples planes.new ≡ whole_of picture.part (given picture.size lent.now) (samples planes.old) }
{
    let _ = filter_whole(picture, planes, lent);
}

// .. for each.
pub fn whole_of_both(recorded: &Recorded<'_>, planes: &mut Planes<'_>)
    ensures same { SamePlanes planes.old planes.new }
    ensures is { samples planes.new ≡ wholes (recording recorded.now) (samples planes.old) }
{
    let size = recorded.size;
    let part = first_part(recorded.second.is_some());
    whole(Picture { size, part }, planes, &recorded.first);
    if let Some(lent) = &recorded.second {
        let part = Part::Field(1);
        whole(Picture { size, part }, planes, lent);
    }
}

// Replays arrival orders of small pictures, refused visits among them, and prints answers, marks, luma sample
// 495 ((15, 15) of a picture two wide) and sums of the planes; of an interlaced frame (field_orders.rt) the
// marks and the sums of each field. What it must print (stdout) was written by `judge arrivals`: the table of
// docs/RULES.md, "Answers", answers each visit; a frame's macroblocks are filtered by the Rust original,
// those of a field, which the original does not have, by the judge's model of the rules.
#![tactic(auto)]

ghost use Rattle.std.specs.Prelude.{◌*◌, ◌≤◌};

mod contents;
mod field_orders;
mod print;

use contents::{Content, Frame};
use pictures::Lent;
use print::{answered, marks, sums};
use sizes::{Part, Picture, Size};
use slices::Slicing;
use std::io;
use visits::visits::replay;

// The most visits of an order, for which answers have the room: `replay` refuses more with 4.
const MOST_VISITS: usize = 8;

// Visits of (xs[k], ys[k]) for each k in turn, of a picture that nothing was visited of. Kept: (1) `replay`,
// which takes columns and rows as two lists; (4) the product of the sides, which is asked to be at most 4:
// `Size::count` would ask that the size is good besides.
fn run(
    rt: &impl Print,
    name: &str,
    size: Size,
    content: Content,
    xs: &[usize],
    ys: &[usize],
) -> io::Result<()>
    requires { size.w * size.h ≤ 4 }
{
    let n = size.w * size.h;
    let mut frame = Frame::BLANK;
    let mut planes = frame.planes(n);
    content.fill(&mut planes);
    let grids = content.grids();
    let mut visited = [0; 4];
    let visited = &mut visited[..n];
    let mut answers = [Ok(()); MOST_VISITS];
    let answers = &mut answers[..xs.len().min(MOST_VISITS)];
    let outcome = replay(
        Picture {
            size,
            part: Part::Frame,
        },
        xs,
        ys,
        &mut planes,
        &Lent {
            slicing: Slicing::Single(content.offsets()),
            grids: grids.lent(n),
        },
        visited,
        answers,
    );
    answered(rt, name, outcome, answers)?;
    marks(rt, "marks", visited)?;
    let sample = planes.luma.get(495).copied().unwrap_or(0);
    print!(rt; ", sample {sample}, sums")?;
    sums(rt, &planes, Part::Frame)?;
    println!(rt;)
}

// .. in four orders.
fn orders(rt: &impl Print, content: Content) -> io::Result<()> {
    let arrivals = [
        (
            "raster order, each twice:",
            [0, 0, 1, 1, 0, 0, 1, 1],
            [0, 0, 0, 0, 1, 1, 1, 1],
        ),
        (
            "as slices arrived:",
            [0, 0, 0, 1, 2, 0, 1, 1],
            [1, 0, 1, 0, 0, 1, 1, 1],
        ),
        (
            "the old release's order, then again:",
            [0, 0, 1, 1, 0, 0, 0, 1],
            [0, 1, 0, 1, 2, 1, 0, 1],
        ),
        (
            "upper row only:",
            [1, 0, 1, 0, 1, 1, 1, 0],
            [0, 0, 1, 1, 0, 1, 0, 0],
        ),
    ];
    for (name, xs, ys) in arrivals {
        run(rt, name, Size { w: 2, h: 2 }, content, &xs, &ys)?;
    }
    Ok(())
}

fn main(rt: HostRuntime) -> io::Result<()> {
    println!(rt; "flat")?;
    orders(&rt, Content::Flat)?;
    println!(rt; "mixed")?;
    orders(&rt, Content::Mixed)?;
    println!(rt; "one wide")?;
    // P12's second half: in a picture one wide (0, 1) has no upper right neighbour to wait for.
    let tall = Size { w: 1, h: 2 };
    run(&rt, "downwards:", tall, Content::Mixed, &[0, 0], &[0, 1])?;
    println!(rt; "interlaced")?;
    field_orders::orders(&rt)
}

// Arrival orders of an interlaced frame, whose two fields are of 2 by 2 macroblocks each. A request is a
// parity, 0 for the top field and 1 for the bottom one, a column and a row: each order has them in turn.
use crate::contents::{Content, Frame};
use crate::print::{answered, marks, sums};
use interlaced::both::replay_fields;
use interlaced::{FieldsLent, Interlaced};
use pictures::Lent;
use sizes::{Part, Size};
use slices::Slicing;
use std::io;

// How many requests an order has.
const REQUESTS: usize = 12;

// The requests, made of a frame of so many macroblocks. Kept: (1) `replay_fields`, which takes them as three
// lists.
fn run(
    rt: &impl Print,
    name: &str,
    macroblocks: usize,
    parities: &[u8; REQUESTS],
    xs: &[usize; REQUESTS],
    ys: &[usize; REQUESTS],
) -> io::Result<()> {
    let mut frame = Frame::BLANK;
    Content::Mixed.fill(&mut frame.planes(macroblocks));
    let of_top = Content::Mixed.grids();
    let of_bottom = Content::Bottom.grids();
    let mut top = [0; 4];
    let mut bottom = [0; 4];
    let mut answers = [Ok(()); REQUESTS];
    let outcome = replay_fields(
        Size { w: 2, h: 2 },
        parities,
        xs,
        ys,
        &mut Interlaced {
            frame: frame.planes(macroblocks),
            top: &mut top,
            bottom: &mut bottom,
        },
        &FieldsLent {
            top: Lent {
                slicing: Slicing::Single(Content::Mixed.offsets()),
                grids: of_top.lent(4),
            },
            bottom: Lent {
                slicing: Slicing::Single(Content::Bottom.offsets()),
                grids: of_bottom.lent(4),
            },
        },
        &mut answers,
    );
    answered(rt, name, outcome, &answers)?;
    marks(rt, "top marks", &top)?;
    marks(rt, "bottom marks", &bottom)?;
    let planes = frame.planes(macroblocks);
    print!(rt; ", top sums")?;
    sums(rt, &planes, Part::Field(0))?;
    print!(rt; ", bottom sums")?;
    sums(rt, &planes, Part::Field(1))?;
    println!(rt;)
}

pub fn orders(rt: &impl Print) -> io::Result<()> {
    let arrivals = [
        (
            "top field first:",
            [0, 0, 0, 0, 0, 1, 1, 1, 1, 1, 0, 1],
            [0, 1, 1, 0, 1, 1, 0, 1, 0, 1, 1, 1],
            [0, 0, 1, 1, 1, 0, 0, 0, 1, 1, 1, 1],
        ),
        (
            "bottom field first:",
            [1, 1, 0, 1, 1, 1, 0, 0, 0, 0, 0, 1],
            [0, 1, 0, 0, 1, 0, 0, 1, 0, 1, 0, 0],
            [0, 0, 1, 1, 1, 0, 0, 0, 1, 1, 0, 1],
        ),
        (
            "in turn:",
            [0, 1, 0, 1, 0, 1, 0, 1, 0, 1, 0, 1],
            [0, 0, 1, 1, 1, 1, 0, 0, 1, 1, 0, 0],
            [0, 0, 0, 0, 1, 1, 1, 1, 1, 1, 0, 0],
        ),
        (
            "with parities of no field:",
            [2, 0, 255, 0, 0, 1, 2, 255, 0, 1, 1, 1],
            [0, 0, 1, 1, 0, 0, 2, 0, 1, 1, 0, 1],
            [0, 0, 0, 0, 1, 0, 0, 2, 1, 0, 1, 1],
        ),
        (
            "the bottom field unfinished:",
            [0, 1, 0, 1, 0, 1, 0, 1, 0, 1, 1, 0],
            [0, 0, 1, 0, 0, 0, 1, 1, 2, 1, 0, 1],
            [0, 0, 0, 2, 1, 1, 1, 0, 1, 1, 0, 1],
        ),
        (
            "the top field unfinished:",
            [1, 0, 1, 0, 1, 2, 0, 1, 0, 0, 1, 0],
            [0, 1, 1, 0, 0, 1, 0, 1, 1, 0, 1, 1],
            [0, 0, 0, 0, 1, 0, 1, 1, 1, 0, 1, 0],
        ),
        (
            "all refused:",
            [0, 1, 0, 1, 2, 255, 2, 255, 0, 1, 3, 1],
            [1, 1, 0, 1, 0, 0, 2, 18446744073709551615, 2, 0, 1, 0],
            [0, 0, 1, 1, 0, 0, 2, 0, 0, 18446744073709551615, 1, 1],
        ),
    ];
    for (name, parities, xs, ys) in arrivals {
        run(rt, name, 8, &parities, &xs, &ys)?;
    }

    // Planes of one field's size, as a frame of 2 by 2 macroblocks has them: no visit is made.
    run(
        rt,
        "planes of one field:",
        4,
        &[0, 1, 0, 1, 2, 255, 0, 1, 2, 0, 1, 1],
        &[0, 0, 1, 1, 0, 1, 2, 0, 2, 0, 0, 1],
        &[0, 0, 0, 0, 0, 1, 0, 2, 0, 1, 1, 1],
    )
}

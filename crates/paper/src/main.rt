// Prints P1 to P11 of docs/RULES.md, "Worked cases", as the code computes them. What it must print (stdout)
// is written by hand from that section.
#![tactic(auto)]

use lines::limits::{Limits, thresholds};
use lines::planes;
use motion::blocks::{Blk, Motion, bs_inter};
use std::io;

// alpha, beta and the three tC0 at a QP and an offset.
fn levels(rt: &impl Print, name: &str, qp: i32, offset: i32) -> io::Result<()> {
    let Some(limits) = thresholds(qp, offset, offset) else {
        return println!(rt; "{name} nothing to do");
    };
    let Limits {
        alpha,
        beta,
        tc1,
        tc2,
        tc3,
        ..
    } = limits;
    println!(rt; "{name} {alpha} {beta} {tc1} {tc2} {tc3}")
}

// Four samples a beside four samples b at index 30, filtered at the strength bs.
fn luma(rt: &impl Print, name: &str, bs: u8, tc0: u8, a: u8, b: u8) -> io::Result<()> {
    let mut line = [a, a, a, a, b, b, b, b];
    planes::filter_luma_line(&mut line, 0, 1, bs, 25, 8, tc0);
    let [p3, p2, p1, p0, q0, q1, q2, q3] = line;
    println!(rt; "{name} {p3} {p2} {p1} {p0} | {q0} {q1} {q2} {q3}")
}

// Two and two.
fn chroma(rt: &impl Print, name: &str, bs: u8, tc0: u8, a: u8, b: u8) -> io::Result<()> {
    let mut line = [a, a, b, b];
    planes::filter_chroma_line(&mut line, 0, 1, bs, 25, 8, tc0);
    let [p1, p0, q0, q1] = line;
    println!(rt; "{name} {p1} {p0} | {q0} {q1}")
}

// What a list holds of a block: a reference, -1 for none, and a horizontal vector.
fn held(reference: i32, x: i16) -> Motion {
    Motion { reference, x, y: 0 }
}

// An inter block.
fn block(list0: Motion, list1: Motion) -> Blk {
    Blk {
        inter: true,
        list0,
        list1,
    }
}

// The strength between two such blocks with no coefficients, at the vertical 3 of frames.
fn strength(p: Blk, q: Blk) -> u8 {
    bs_inter(3, false, p, q)
}

// One reference, and vectors that differ by x.
fn apart(x: i16) -> u8 {
    strength(
        block(held(2, x), Motion::NONE),
        block(held(2, 0), Motion::NONE),
    )
}

fn inter_blocks(rt: &impl Print) -> io::Result<()> {
    let wide = apart(-4);
    let close = apart(-3);
    let close_too = apart(3);
    let wide_too = apart(4);
    println!(rt;
        "P9 one reference, x differences -4 -3 3 4: {wide} {close} {close_too} {wide_too}"
    )?;
    let exchanged = strength(block(held(5, 0), held(7, 8)), block(held(7, 8), held(5, 0)));
    println!(rt; "P10 references 5 7 against 7 5: {exchanged}")?;
    let twice = strength(block(held(5, 0), held(5, 8)), block(held(5, 8), held(5, 4)));
    println!(rt; "P11 reference 5 twice: {twice}")
}

fn main(rt: HostRuntime) -> io::Result<()> {
    levels(&rt, "P1 index 15:", 15, 0)?;
    levels(&rt, "P1 index 16:", 16, 0)?;
    levels(&rt, "P2 QP 51, offset 12:", 51, 12)?;
    luma(&rt, "P3 strength 2:", 2, 1, 60, 70)?;
    luma(&rt, "P4 strength 4:", 4, 0, 60, 70)?;
    luma(&rt, "P5 strength 4:", 4, 0, 60, 67)?;
    luma(&rt, "P6 strength 4:", 4, 0, 60, 68)?;
    luma(&rt, "P7 strength 1:", 1, 1, 60, 84)?;
    luma(&rt, "P7 with 85:", 1, 1, 60, 85)?;
    chroma(&rt, "P8 chroma, strength 1:", 1, 1, 60, 70)?;
    chroma(&rt, "P8 chroma, strength 4:", 4, 0, 60, 70)?;
    inter_blocks(&rt)
}

// Runs the strength calls and the filtering calls on a picture of 2 by 1 macroblocks and prints each answer
// with what the call left. What it must print (stdout) was made by the Rust original:
// host/oracle/examples/answers.rs makes the same calls of it.
#![tactic(auto)]

use edges::{MbGrids, Offsets, Planes};
use motion::grids::{Grids, ReferenceList};
use pictures::Lent;
use pictures::rows::filter_whole;
use refusals::{Refusal, number};
use sizes::{Part, Picture, Size};
use slices::Slicing;
use std::io;
use strengths::Source;
use strengths::calls::{derive_mb, derive_mb_bs, derive_mb_kind};
use strengths::kinds::{Flagged, MbKind, Request};

// Kept: (4) each loop that prints numbers has words and an end of its own around it; what is alike is two
// lines.
fn numbers(rt: &impl Print, s: &[u8]) -> io::Result<()> {
    for n in s {
        print!(rt; " {n}")?;
    }
    println!(rt;)
}

fn answer(rt: &impl Print, outcome: Result<(), Refusal>, s: &[u8]) -> io::Result<()> {
    print!(rt; "{}:", number(outcome))?;
    numbers(rt, s)
}

// Columns that rise by 5 every four.
fn rise(s: &mut [u8]) {
    for (i, x) in s.iter_mut().enumerate() {
        // Kept: (4) the cast loses nothing, which `try_from` would have to be told anew.
        *x = 60 + 5 * ((i / 4 % 8) as u8);
    }
}

// A list without a table.
fn untabled<'a>(references: &'a [i8], vectors: &'a [i16]) -> ReferenceList<'a> {
    ReferenceList {
        references,
        vectors,
        pictures: &[],
    }
}

// Grids of list 0 alone, without a table.
fn one_list<'a>(inter: &'a [u8], nnz: &'a [u8], refs: &'a [i8], mvs: &'a [i16]) -> Grids<'a> {
    let list0 = untabled(refs, mvs);
    let list1 = untabled(&[], &[]);
    Grids {
        inter,
        nnz,
        list0,
        list1,
    }
}

// A frame of 2 by 1 macroblocks.
fn two<'a>(t8s: &'a [u8], grids: Grids<'a>) -> Source<'a> {
    Source {
        size: Size { w: 2, h: 1 },
        field: false,
        t8s,
        grids,
    }
}

// Blocks that are all intra, or all inter with one count and one vector apart, both in the right macroblock.
// Where that one is 8x8 the original, which looks at each block's own count, is lent it in all four blocks of
// the 8x8 block.
fn plain(rt: &impl Print, inter: u8, x: usize, t8: u8, s: &mut [u8]) -> io::Result<()> {
    let mut nnz = [0; 32];
    nnz[13] = 3;
    let mut mv0 = [0; 64];
    mv0[44] = 4;
    let inters = [inter; 32];
    let grids = one_list(&inters, &nnz, &[0; 32], &mv0);
    let outcome = derive_mb(&two(&[0, t8], grids), x, 0, s);
    print!(rt; "plain ")?;
    answer(rt, outcome, s)
}

// Both lists, the pictures of the right macroblock's first block exchanged.
fn flagged(rt: &impl Print, x: usize, flat: bool, uniform: bool, s: &mut [u8]) -> io::Result<()> {
    let mut ref0 = [5; 32];
    let mut ref1 = [7; 32];
    ref0[4] = 7;
    ref1[4] = 5;
    let grids = Grids {
        inter: &[1; 32],
        nnz: &[0; 32],
        list0: untabled(&ref0, &[0; 64]),
        list1: untabled(&ref1, &[0; 64]),
    };
    let f = Flagged {
        x,
        y: 0,
        flat,
        uniform,
    };
    let outcome = derive_mb_bs(&two(&[], grids), f, s);
    print!(rt; "flagged ")?;
    answer(rt, outcome, s)
}

// Both lists with tables: indices 0 and 2 of list 0 and 1 of list 1 name picture 5, the other ones picture 7,
// and 3 is past list 0's. In the right macroblock the first block of each row has other references.
fn listed(rt: &impl Print, x: usize, last: i32, s: &mut [u8]) -> io::Result<()> {
    let mut ref0 = [0; 32];
    let mut ref1 = [1; 32];
    ref0[4] = 2;
    ref0[12] = 3;
    ref1[20] = 0;
    ref0[28] = 1;
    ref1[28] = -1;
    let grids = Grids {
        inter: &[1; 32],
        nnz: &[0; 32],
        list0: ReferenceList {
            references: &ref0,
            vectors: &[0; 64],
            pictures: &[5, 7, last],
        },
        list1: ReferenceList {
            references: &ref1,
            vectors: &[0; 64],
            pictures: &[7, 5],
        },
    };
    let outcome = derive_mb(&two(&[], grids), x, 0, s);
    print!(rt; "listed ")?;
    answer(rt, outcome, s)
}

// The left macroblock is intra, the right one inter with one motion.
fn by_kind(rt: &impl Print, x: usize, kind: MbKind, s: &mut [u8]) -> io::Result<()> {
    let grids = Grids {
        inter: &[
            0, 0, 0, 0, 1, 1, 1, 1, 0, 0, 0, 0, 1, 1, 1, 1, 0, 0, 0, 0, 1, 1, 1, 1, 0, 0, 0, 0, 1,
            1, 1, 1,
        ],
        nnz: &[0; 32],
        list0: untabled(&[2; 32], &[-7; 64]),
        list1: untabled(&[], &[]),
    };
    let outcome = derive_mb_kind(&two(&[], grids), Request { x, y: 0, kind }, s);
    print!(rt; "kind ")?;
    answer(rt, outcome, s)
}

// The whole picture by the strengths s.
fn frame<'l>(
    rt: &impl Print,
    qps: &'l [u8],
    t8s: &'l [u8],
    o: Offsets,
    s: &'l [u8],
) -> io::Result<()> {
    let mut luma = [0; 512];
    let mut u = [0; 128];
    let mut v = [90; 128];
    rise(&mut luma);
    rise(&mut u);
    let slicing = Slicing::Single(o);
    let lent = Lent {
        slicing,
        grids: MbGrids {
            strengths: s,
            qps,
            t8s,
        },
    };
    let mut planes = Planes {
        luma: &mut luma,
        u: &mut u,
        v: &mut v,
    };
    let picture = Picture {
        size: Size { w: 2, h: 1 },
        part: Part::Frame,
    };
    let outcome = filter_whole(picture, &mut planes, &lent);
    print!(rt; "frame ")?;
    answer(rt, outcome, &luma)?;
    numbers(rt, &u)?;
    numbers(rt, &v)
}

fn main(rt: HostRuntime) -> io::Result<()> {
    let mut s = [9; 64];
    plain(&rt, 1, 0, 0, &mut s)?;
    plain(&rt, 1, 1, 1, &mut s)?;
    flagged(&rt, 0, true, true, &mut s)?;
    flagged(&rt, 1, false, false, &mut s)?;
    flagged(&rt, 1, false, true, &mut s)?;
    by_kind(&rt, 0, MbKind::Intra, &mut s)?;
    by_kind(&rt, 1, MbKind::Skip, &mut s)?;
    by_kind(&rt, 1, MbKind::Intra, &mut s)?;
    listed(&rt, 0, 5, &mut s)?;
    listed(&rt, 1, 5, &mut s)?;
    listed(&rt, 1, 65536, &mut s)?;
    plain(&rt, 0, 0, 0, &mut s)?;
    plain(&rt, 1, 1, 0, &mut s)?;
    plain(&rt, 2, 1, 0, &mut s)?;
    frame(
        &rt,
        &[30, 34],
        &[],
        Offsets {
            a: 0,
            b: 0,
            chroma_u: 0,
            chroma_v: 0,
        },
        &s,
    )?;
    frame(
        &rt,
        &[30, 40],
        &[1, 0],
        Offsets {
            a: 6,
            b: -4,
            chroma_u: 2,
            chroma_v: 2,
        },
        &s,
    )?;
    frame(
        &rt,
        &[30, 52],
        &[],
        Offsets {
            a: 0,
            b: 0,
            chroma_u: 0,
            chroma_v: 0,
        },
        &s,
    )
}

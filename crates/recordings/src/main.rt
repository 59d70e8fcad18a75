// Replays recordings (FORMAT.md) of a real decoder and of the Rust original. The arguments name the files,
// which hold one recording or several end to end, each of a frame or of the two fields of one, with slices or
// without. The strengths derived from the recorded grids are those of the file, and the planes before the
// filter become those after it, each picture filtered as a whole, and by visits in three orders, those of two
// fields mixed. It prints a line for each; what it must print (stdout) is that all are equal.
#![tactic(auto)]

ghost use Rattle.std.specs.Prelude.{◌≤◌};
ghost use Rattle.recordings.specs.Orders.{most_of};

mod both;
mod grids;
mod load;
mod orders;
mod places;
mod space;
mod ways;

use both::Recorded;
use load::{Frame, Head, Held, Loaded};
use sizes::Size;
use slices::ChromaOffsets;
use std::alloc::Global;
use std::io::{ErrorKind, Read};
use std::rt::Files;
use std::{env, fs, io};
use trials::{Verdict, read_full};

// The parts of a recording after its header: the planes before the filter and after it, and its pictures.
#[derive(Drop)]
struct Parts {
    before: Frame,
    after: Frame,
    first: Held,
    second: Option<Held>,
}

impl Parts {
    fn read(file: &mut impl Read, alloc: Global, head: &Head) -> io::Result<Parts>
        requires { head.now.n ≤ most_of head.now.two }
    {
        let macroblocks = both::frames(head.two, head.n);
        let before = Frame::read(file, alloc, macroblocks)?;
        let after = Frame::read(file, alloc, macroblocks)?;
        let first = Held::read(file, alloc, head)?;
        let second = if head.two {
            Some(Held::read(file, alloc, head)?)
        } else {
            None
        };
        Ok(Parts {
            before,
            after,
            first,
            second,
        })
    }
}

// Whether the strengths of all pictures are those that were derived; nothing where they are free of grids.
fn same_strengths(first: Loaded<'_>, second: Option<Loaded<'_>>) -> Option<bool> {
    match second {
        Some(second) => Some(first.same? && second.same?),
        None => first.same,
    }
}

// What became of a recording. What is printed as equal is equal: the contracts of `check::same` and
// `orders::all` say so.
fn report(rt: &impl Print, head: &Head, parts: &Parts) -> io::Result<()> {
    let first = parts.first.loaded();
    let second = parts.second.as_ref().map(|picture| picture.loaded());
    match same_strengths(first, second) {
        Some(same) => print!(rt; ", strengths {}", Verdict(same))?,
        None => print!(rt; ", strengths as they are")?,
    }
    let recorded = Recorded {
        size: head.size,
        n: head.n,
        first: first.lent,
        second: second.map(|picture| picture.lent),
    };
    let came = orders::all(&recorded, parts.before.shown(), parts.after.shown());
    let name = if head.two { "pictures" } else { "picture" };
    print!(rt; ", {name} {}", Verdict(came.whole))?;
    print!(rt; ", raster order {}", Verdict(came.raster))?;
    print!(rt; ", reverse order {}", Verdict(came.reverse))?;
    println!(rt; ", by leaps {}", Verdict(came.leaps))
}

// Reads the parts after the header, and answers whether another recording may follow. Memory that ran out is
// no word about the file: it ends the program.
fn replay(rt: &impl Print, alloc: Global, file: &mut impl Read, head: &Head) -> io::Result<bool> {
    if both::most(head.two) < head.n {
        println!(rt; " is too large")?;
        return Ok(false);
    }
    let parts = match Parts::read(file, alloc, head) {
        Ok(parts) => parts,
        Err(e) if e.kind() == ErrorKind::OutOfMemory => return Err(e),
        Err(_) => {
            println!(rt; " cannot be read")?;
            return Ok(false);
        }
    };
    report(rt, head, &parts)?;
    Ok(true)
}

// A header of eight bits, a frame or two fields; nothing where it is another. Kept: (4) the product of the
// sides: `Size::count` asks that a size is good, and a header may say any.
fn head_of(bytes: &[u8; 14]) -> Option<Head> {
    let [
        b'D',
        b'B',
        b'V',
        b'1',
        w,
        0,
        h,
        0,
        8,
        pictures @ (1 | 2),
        flags,
        u,
        v,
        0,
    ] = *bytes
    else {
        return None;
    };
    if 32 <= flags {
        return None;
    }
    Some(Head {
        size: Size {
            w: usize::from(w),
            h: usize::from(h),
        },
        n: usize::from(w) * usize::from(h),
        two: pictures == 2,
        lists: flags & 1 != 0,
        t8: flags & 2 != 0,
        slices: flags & 4 != 0,
        tables: flags & 8 != 0,
        free: flags & 16 != 0 && u == v,
        chroma: ChromaOffsets {
            u: i32::from(u.cast_signed()),
            v: i32::from(v.cast_signed()),
        },
    })
}

// One recording, and whether another may follow.
fn recording(rt: &impl Print, alloc: Global, file: &mut impl Read, name: &str) -> io::Result<bool> {
    let mut bytes = [0; 14];
    let got = read_full(file, &mut bytes);
    if got == 0 {
        return Ok(false);
    }
    print!(rt; "{name}: ")?;
    let Some(head) = head_of(&bytes).filter(|_| got == 14) else {
        println!(rt; "not of a kind that this program knows")?;
        return Ok(false);
    };
    if head.two {
        print!(rt; "two fields of ")?;
    }
    print!(rt; "{} by {}", head.size.w, head.size.h)?;
    replay(rt, alloc, file, &head)
}

// A proved loop has to end, and nothing says that a file does, so it takes 1000 turns. Kept: (4) nothing is
// indexed.
fn recordings(rt: &impl Print, alloc: Global, file: &mut impl Read, name: &str) -> io::Result<()> {
    for _ in 0..1000 {
        if !recording(rt, alloc, file, name)? {
            break;
        }
    }
    Ok(())
}

fn argument(rt: &(impl Files + Print), alloc: Global, name: &str) -> io::Result<()> {
    let Ok(mut file) = fs::open(rt, name) else {
        return println!(rt; "{name} cannot be opened");
    };
    recordings(rt, alloc, &mut file, name)
}

fn main(rt: HostRuntime) -> io::Result<()> {
    let alloc = rt.alloc();
    for name in env::args(&rt)?.skip(1) {
        argument(&rt, alloc, name.as_str())?;
    }
    Ok(())
}

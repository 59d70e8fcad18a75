// What is printed: words, numbers, and sums of the samples of a plane.
// Kept: (4) two loops that print numbers: the one has answers, which become numbers first, the other has
// marks.
ghost use Rattle.std.specs.Prelude.{◌<◌};

use edges::Planes;
use refusals::{Refusal, number};
use sizes::Part;
use std::io;

// How a line of output starts: the order's name, what the replay answered, and what each visit did.
pub fn answered(
    rt: &impl Print,
    name: &str,
    outcome: Result<(), Refusal>,
    answers: &[Result<(), Refusal>],
) -> io::Result<()> {
    print!(rt; "{name} {}, answers", number(outcome))?;
    for answer in answers {
        print!(rt; " {}", number(*answer))?;
    }
    Ok(())
}

pub fn marks(rt: &impl Print, name: &str, marks: &[u8]) -> io::Result<()> {
    print!(rt; ", {name}")?;
    for mark in marks {
        print!(rt; " {mark}")?;
    }
    Ok(())
}

// Whether a line of the planes is the picture's: in a field those of its parity are.
fn is_own(part: Part, line: usize) -> bool {
    match part {
        Part::Frame => true,
        Part::Field(parity) => line % 2 == usize::from(parity),
    }
}

// The sum with sample v.
fn mixed_in(h: u64, v: u8) -> u64
    requires { h < 65521 }
    ensures { result < 65521 }
{
    (h * 31 + u64::from(v)) % 65521
}

// The sum of the picture's samples in a plane whose lines are so wide.
fn sum(plane: &[u8], width: usize, part: Part) -> u64
    requires { 0 < width }
{
    let mut h = 0;
    for (i, v) in plane.iter().enumerate() {
        if is_own(part, i / width) {
            h = mixed_in(h, *v);
        }
    }
    h
}

// Of planes two macroblocks wide; the sums of a frame are the same for any width.
pub fn sums(rt: &impl Print, planes: &Planes<'_>, part: Part) -> io::Result<()> {
    let luma = sum(planes.luma, 32, part);
    let u = sum(planes.u, 16, part);
    let v = sum(planes.v, 16, part);
    print!(rt; " {luma} {u} {v}")
}

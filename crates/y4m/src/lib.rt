// Pictures in the format YUV4MPEG2 (.y4m): the first picture of a stream read into planes, and a stream of
// one picture written.
// Kept: (4) sides as C has them: the casts lose nothing, which `try_from` would have to be told anew.
#![tactic(auto)]

ghost use Rattle.std.specs.Prelude.{◌≡◌};

use refusals::Refusal;
use sizes::Size;

mod copy;
mod header;
pub mod reader;
mod text;
pub mod writer;

// What a reader answers, as C has it: a number and, where that is 0, the picture's size in macroblocks; else
// 0 and 0. Kept: (1) the C interface (include/deblock.h) has this struct.
#[repr(C)]
#[derive(Clone, Copy, Debug, PartialEq, Eq)]
pub struct Found {
    pub number: u32,
    pub w: u32,
    pub h: u32,
}

// Kept: (4) `of` for `From`: it asks that a size is good, so that the casts lose nothing, and a `From` may
// ask nothing.
impl Found {
    ghost use Rattle.y4m.specs.Calls.{found_of, IfGoodSize};

    pub fn of(outcome: Result<Size, Refusal>) -> Found
        requires { IfGoodSize outcome }
        ensures { result ≡ found_of outcome }
    {
        match outcome {
            Ok(size) => Found {
                number: 0,
                w: size.w as u32,
                h: size.h as u32,
            },
            Err(e) => Found {
                number: e.into(),
                w: 0,
                h: 0,
            },
        }
    }
}

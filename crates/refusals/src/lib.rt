// Why a call refuses, and the number that C is told of it.
#![tactic(auto)]

ghost use Rattle.std.specs.Prelude.{◌≡◌};
ghost use Rattle.refusals.specs.Refusals.{code_of, number_of};

use thiserror::Error;

// The check by which a call refuses: docs/RULES.md, "Answers", has each by its number.
#[derive(Clone, Copy, Debug, PartialEq, Eq, Error)]
pub enum Refusal {
    #[error("the picture's width or height is out of range")]
    Size = 1,
    #[error("what is asked for lies outside the picture")]
    Outside = 2,
    #[error("a plane has the wrong length")]
    Planes = 3,
    #[error("a grid by macroblock has the wrong length")]
    Grids = 4,
    #[error("a grid by block has the wrong length")]
    Blocks = 5,
    #[error("an offset is out of range")]
    Offset = 6,
    #[error("a flag or a mark is above 1")]
    Flag = 7,
    #[error("a QP is above 51")]
    Qp = 8,
    #[error("a strength is above 4")]
    Strength = 9,
    #[error("a reference is below -1")]
    Reference = 10,
    #[error("a macroblock is neither all inter nor all intra")]
    Mixed = 11,
    #[error("the kind that is given is not true")]
    Kind = 12,
    #[error("the macroblock was visited")]
    Visited = 13,
    #[error("a neighbour of the macroblock was not visited")]
    NotReady = 14,
    #[error("a line of the stream is malformed")]
    Malformed = 15,
    #[error("the stream has other planes")]
    OtherPlanes = 16,
    #[error("the stream's picture has sides that are not taken")]
    Sides = 17,
    #[error("the stream has the wrong length")]
    Stream = 18,
    #[error("there is no field of this parity")]
    Parity = 19,
    #[error("a slice number is outside the table")]
    SliceNumber = 20,
    #[error("a slice's mode is unknown")]
    SliceMode = 21,
    #[error("a picture's number is out of range")]
    Picture = 22,
}

impl From<Refusal> for u32 {
    ghost from_gives = { λ r n. n ≡ code_of r };

    fn from(r: Refusal) -> u32 {
        // Kept: (4) the discriminant itself; an enum has no other way to its number.
        r as u32
    }
}

// C's number of an outcome: 0 where nothing was refused.
pub fn number(outcome: Result<(), Refusal>) -> u32
    ensures { result ≡ number_of outcome }
{
    match outcome {
        Ok(()) => 0,
        Err(r) => r.into(),
    }
}

// When a macroblock is final: no later visit touches its samples, so it may be shown.
#![tactic(auto)]

ghost use Rattle.std.specs.Prelude.{◌≡◌};
ghost use Rattle.finality.specs.Final.{finality_answered, all_answered};

use refusals::Refusal;

pub mod calls;

// What a visit has made final: the macroblock itself, its left, its upper neighbour. Kept: (4) no struct of
// any three of them: `all_answered` names these members.
#[derive(Clone, Copy, Debug, PartialEq, Eq)]
pub struct MadeFinal {
    pub own: bool,
    pub left: bool,
    pub upper: bool,
}

// Whether a macroblock is final, as C has it: a number, and where that is 0 the answer; else false.
// Kept: (1) the C interface (include/deblock.h) has this struct.
#[repr(C)]
#[derive(Clone, Copy, Debug, PartialEq, Eq)]
pub struct Finality {
    pub number: u32,
    pub yes: bool,
}

// The same of a macroblock, of its left and of its upper neighbour.
// Kept: (1) the C interface has this struct.
#[repr(C)]
#[derive(Clone, Copy, Debug, PartialEq, Eq)]
pub struct Finals {
    pub number: u32,
    pub own: bool,
    pub left: bool,
    pub upper: bool,
}

impl From<Result<bool, Refusal>> for Finality {
    ghost from_gives = { λ r f. f ≡ finality_answered r };

    fn from(r: Result<bool, Refusal>) -> Finality {
        match r {
            Ok(yes) => Finality { number: 0, yes },
            Err(e) => Finality {
                number: e.into(),
                yes: false,
            },
        }
    }
}

impl From<Result<MadeFinal, Refusal>> for Finals {
    ghost from_gives = { λ r f. f ≡ all_answered r };

    fn from(r: Result<MadeFinal, Refusal>) -> Finals {
        match r {
            Ok(made) => Finals {
                number: 0,
                own: made.own,
                left: made.left,
                upper: made.upper,
            },
            Err(e) => Finals {
                number: e.into(),
                own: false,
                left: false,
                upper: false,
            },
        }
    }
}

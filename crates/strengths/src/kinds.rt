// The picture's mode; what a caller may know of a macroblock beforehand, and the requests that carry it
// beside the coordinates.
ghost use Rattle.std.specs.Prelude.{◌≡◌, false, ◌<◌, eqb, length};
ghost use Rattle.strengths.specs.ByKind.{is_intra, kind_by, kind_of, asks_motion, says_any, untrue_by, kind_known};
ghost use Rattle.strengths.specs.Kinds.{known_number, known_at};
ghost use Rattle.strengths.specs.Inner.{Decodes};
ghost use Rattle.strengths.specs.Strength.{mode_of};
ghost use Rattle.strengths.specs.Told.{known_of, kinds_of};

// What strengths take of the picture's mode: the most by which near vectors differ vertically, and the
// strength of an upper edge beside an intra block.
#[derive(Clone, Copy, Debug, PartialEq, Eq)]
pub struct Mode {
    pub limit: u8,
    pub upper: u8,
}

impl Mode {
    // The mode of a field, or else of a frame.
    pub fn for_field(field: bool) -> Mode
        ensures { result ≡ mode_of field }
    {
        if field {
            return Mode { limit: 1, upper: 3 };
        }
        Mode { limit: 3, upper: 4 }
    }
}

// What all 16 blocks of a macroblock have in common: docs/RULES.md, "Strengths". Numbers 0 to 3 stand for
// them.
#[derive(Clone, Copy, Debug, PartialEq, Eq)]
pub enum MbKind {
    Intra,
    Skip,
    InterUniform,
    Inter,
}

// A number that stands for no kind.
#[derive(Clone, Copy, Debug, PartialEq, Eq)]
pub struct NoSuchKind(pub u8);

impl TryFrom<u8> for MbKind {
    type Error = NoSuchKind;

    ghost try_from_gives = { Decodes };

    fn try_from(number: u8) -> Result<MbKind, NoSuchKind> {
        match number {
            0 => Ok(MbKind::Intra),
            1 => Ok(MbKind::Skip),
            2 => Ok(MbKind::InterUniform),
            3 => Ok(MbKind::Inter),
            _ => Err(NoSuchKind(number)),
        }
    }
}

impl MbKind {
    pub fn is_intra(self) -> bool
        ensures { result ≡ is_intra self }
    {
        matches!(self, MbKind::Intra)
    }

    // Whether it is true, by what the blocks show: the first is inter, all have one motion, some has a count.
    // Kept: (1) here and below the three apart: `kind_by` and `untrue_by` of specs/ name each.
    pub fn holds(self, first: bool, same: bool, counted: bool) -> bool
        ensures { result ≡ kind_by self first same counted }
    {
        match self {
            MbKind::Intra => !first,
            MbKind::Skip => first & same & !counted,
            MbKind::InterUniform => first & same,
            MbKind::Inter => first,
        }
    }

    // The kind that true flags amount to.
    pub fn of_flags(first: bool, flat: bool, uniform: bool) -> MbKind
        ensures { result ≡ kind_of first flat uniform }
    {
        if !first {
            return MbKind::Intra;
        }
        if flat {
            return MbKind::Skip;
        }
        if uniform {
            return MbKind::InterUniform;
        }
        MbKind::Inter
    }
}

// What a caller says of a macroblock: its kind, flags that it sets only where they are true, or a kind that
// is none of the four and so true of none. Kept: (1) that one beside the kinds: a number that is no kind is
// refused as an untrue one is, by check 12 in its turn (`known_number`, `untrue_by`).
#[derive(Clone, Copy, Debug, PartialEq, Eq)]
pub enum Known {
    Stated(MbKind),
    Flags { flat: bool, uniform: bool },
    NoKind,
}

// What a number of a kind says.
impl From<u8> for Known {
    ghost from_gives = { λ number known. known ≡ known_number number };

    fn from(number: u8) -> Known {
        match MbKind::try_from(number) {
            Ok(kind) => Known::Stated(kind),
            Err(_) => Known::NoKind,
        }
    }
}

impl Known {
    // Kept: (1) nothing is known where no flag is set: `FlagsOutcome` and `known_of` of specs/ have it so.
    pub const NOTHING: Known = Known::Flags {
        flat: false,
        uniform: false,
    };

    // Whether it is anything.
    pub fn says_any(self) -> bool
        ensures { result ≡ says_any self }
    {
        match self {
            Known::Stated(_) | Known::NoKind => true,
            Known::Flags { flat, uniform } => flat | uniform,
        }
    }

    // Whether motion tells that it is untrue.
    pub fn asks_motion(self) -> bool
        ensures { result ≡ asks_motion self }
    {
        match self {
            Known::Stated(kind) => matches!(kind, MbKind::Skip | MbKind::InterUniform),
            Known::Flags { flat, uniform } => flat | uniform,
            Known::NoKind => false,
        }
    }

    // Whether it is untrue.
    pub fn is_untrue(self, first: bool, same: bool, counted: bool) -> bool
        ensures { result ≡ untrue_by self first same counted }
    {
        match self {
            Known::Stated(kind) => !kind.holds(first, same, counted),
            Known::Flags { flat, uniform } => {
                (flat & !(first & same & !counted)) | (uniform & !(first & same))
            }
            Known::NoKind => true,
        }
    }

    // The kind to go by. Where it is not a kind, no macroblock comes so far. Kept: (1) its answer there is
    // that of `kind_known` of specs/.
    pub fn kind(self, first: bool) -> MbKind
        ensures { result ≡ kind_known self first }
    {
        match self {
            Known::Stated(kind) => kind,
            Known::Flags { flat, uniform } => MbKind::of_flags(first, flat, uniform),
            Known::NoKind => MbKind::Inter,
        }
    }
}

// What a call is told of macroblocks: the same of each, or the numbers of their kinds, of which there may be
// none. Kept: (1) numbers, as C lends them: check 12 answers of one that is no kind.
#[derive(Clone, Copy, Debug, PartialEq, Eq)]
pub enum Told<'a> {
    Same(Known),
    Kinds(&'a [u8]),
}

impl Told<'_> {
    // Of macroblock i.
    pub fn at(self, i: usize) -> Known
        requires { eqb (length (kinds_of self)) 0 ≡ false → i < length (kinds_of self) }
        ensures { result ≡ known_at (known_of self.entry) (kinds_of self.entry) i }
    {
        match self {
            Told::Same(known) => known,
            Told::Kinds(kinds) => {
                if kinds.is_empty() {
                    return Known::NOTHING;
                }
                kinds[i].into()
            }
        }
    }
}

// What the four strengths of an edge depend on: nothing, so that they are the same; coefficients; or motion
// too.
#[derive(Clone, Copy, Debug, PartialEq, Eq)]
pub enum Asked {
    Same(u8),
    Coded,
    Moving,
}

// One macroblock with its kind.
#[derive(Clone, Copy, Debug, PartialEq, Eq)]
pub struct Request {
    pub x: usize,
    pub y: usize,
    pub kind: MbKind,
}

// One macroblock with flags that the caller sets only where they are true.
#[derive(Clone, Copy, Debug, PartialEq, Eq)]
pub struct Flagged {
    pub x: usize,
    pub y: usize,
    pub flat: bool,
    pub uniform: bool,
}

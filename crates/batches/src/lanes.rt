// What each of a batch's sixteen lines is lent, by the strength of its segment. Values come from a row of
// five, not by branches, which mixed strengths would mislead.
ghost use Rattle.std.specs.Prelude.{◌≡◌, false, ℕ, ◌<◌, List};
ghost use Rattle.batches.specs.Lanes.{LooksUp, as_thresholds, slot_of, strong_row, spread_of, four_each, two_each, eight_each, is_weak, is_strong, any, word_of, no_strength, still_edge};

use lines::limits::Limits;

// The strengths of an edge's four segments. Kept: (1) no [u8; 4]: `word_of`, `any`, `four_each`, `two_each`
// and `segment_strength` of specs/ name its members.
#[derive(Clone, Copy, Debug, PartialEq, Eq)]
pub struct Four {
    pub a: u8,
    pub b: u8,
    pub c: u8,
    pub d: u8,
}

// What the lines of an edge are filtered with: alpha, beta, and the index that tC0 has in the tables. An
// alpha of 0 leaves them all.
// Kept: (4) no `Option`: a lane has no branch to leave by, so that what is left is said by a number. And no
// `Limits`: a batch looks its caps up by the index, and tc1 to tc3 would be handed on and never read.
#[derive(Clone, Copy, Debug, PartialEq, Eq)]
pub struct Thresholds {
    pub alpha: u8,
    pub beta: u8,
    pub index: usize,
}

impl From<Option<Limits>> for Thresholds {
    ghost from_gives = { λ m l. l ≡ as_thresholds m };

    fn from(m: Option<Limits>) -> Thresholds {
        match m {
            Some(limits) => Thresholds {
                alpha: limits.alpha,
                beta: limits.beta,
                index: limits.index,
            },
            None => Thresholds {
                alpha: 0,
                beta: 0,
                index: 0,
            },
        }
    }
}

// What an edge is filtered with in one plane.
#[derive(Clone, Copy, Debug, PartialEq, Eq)]
pub struct Single {
    pub s: Four,
    pub by: Thresholds,
}

// .. in both chroma planes.
#[derive(Clone, Copy, Debug, PartialEq, Eq)]
pub struct Both {
    pub s: Four,
    pub u: Thresholds,
    pub v: Thresholds,
}

// Where a row has the value of a strength: 4 and above are one.
fn slot(s: u8) -> usize
    ensures is { result ≡ slot_of s }
    ensures small { result < 5 }
{
    usize::from(s.min(4))
}

// Alpha in the pass of strength 4.
pub fn strong_row(l: Thresholds) -> [u8; 5]
    ensures { result ≡ strong_row l }
{
    [0, 0, 0, 0, l.alpha]
}

// Sixteen lanes, two of each value.
// Kept: (4) eight values: `two_each` has four of one row and four of another, so that an array of them would
// be written out all the same.
fn spread(a: u8, b: u8, c: u8, d: u8, e: u8, f: u8, g: u8, h: u8) -> [u8; 16]
    ensures { result ≡ spread_of a b c d e f g h }
{
    [a, a, b, b, c, c, d, d, e, e, f, f, g, g, h, h]
}

// Of each luma line the value that `row` has for its strength. Kept: (4) beside `two_each`: four lookups in
// one row, there eight in two.
pub fn four_each<F: Fn(usize) -> u8>(row: F, s: Four) -> [u8; 16]
    requires { (i : ℕ) → i < 5 → F.pre row i }
    ensures { (l : List ℕ) → LooksUp (F.post row) l → result ≡ four_each l s }
{
    let a = row(slot(s.a));
    let b = row(slot(s.b));
    let c = row(slot(s.c));
    let d = row(slot(s.d));
    spread(a, a, b, b, c, c, d, d)
}

// Of each of U's chroma lines the value that the row u has for its strength, and of V's that of v.
pub fn two_each<F: Fn(usize) -> u8, G: Fn(usize) -> u8>(u: F, v: G, s: Four) -> [u8; 16]
    requires u_row { (i : ℕ) → i < 5 → F.pre u i }
    requires v_row { (i : ℕ) → i < 5 → G.pre v i }
    ensures { (l m : List ℕ) → LooksUp (F.post u) l → LooksUp (G.post v) m → result ≡ two_each l m s }
{
    let a = slot(s.a);
    let b = slot(s.b);
    let c = slot(s.c);
    let d = slot(s.d);
    spread(u(a), u(b), u(c), u(d), v(a), v(b), v(c), v(d))
}

// x for U's chroma lines and y for V's.
pub fn eight_each(x: u8, y: u8) -> [u8; 16]
    ensures { result ≡ eight_each x y }
{
    spread(x, x, x, x, y, y, y, y)
}

// The four strengths as one number: a test of it is one instruction, where four tests are made a vector.
fn word(s: Four) -> u32
    ensures { result ≡ word_of s }
{
    u32::from_le_bytes([s.a, s.b, s.c, s.d])
}

// Some line may have a strength of 1 to 3: not all have 4, as at the border of an intra macroblock.
pub fn any_weak(s: Four) -> bool
    ensures { result ≡ false → any is_weak s ≡ false }
{
    word(s) != 0x0404_0404
}

// Some line has a strength of 4: it has a bit that 0 to 3 have not.
#[tactic(auto, using(crate::proofs::Rulesets::strong_bits))]
pub fn any_strong(s: Four) -> bool
    ensures { result ≡ false → any is_strong s ≡ false }
{
    3 < (s.a | s.b | s.c | s.d)
}

// Every line has the strength 0.
fn no_strength(s: Four) -> bool
    ensures { result ≡ no_strength s }
{
    word(s) == 0
}

// No line of the edge can change.
pub fn is_still(s: Four, l: Thresholds) -> bool
    ensures { result ≡ still_edge s l }
{
    no_strength(s) | (l.alpha == 0)
}

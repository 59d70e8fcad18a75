// The tables, end to end in one array: alpha at 0, beta at 52, caps at 104, QPC at 364. A cap is tC0 + 1;
// an index has five, for strengths 0 to 4, of which those of 0 and 4 are 0. They are a static, since the
// compiler builds a constant array anew wherever it is used.
// Kept: (1) that an index is below 52 is asked by each lookup: `thresholds_of` of specs/ and `as_thresholds`
// of `batches` make their structs of a number, and with a type for it they would have to hold its proof. (4)
// `alpha_at`, `beta_at` and `qpc_at`: one line each. And four tables in one array: apart, each would have a
// `lent` and an `entry` of its own in place of where it begins.
ghost use Rattle.std.specs.Prelude.{◌≡◌, ◌<◌, pos, get_or};
ghost use Rattle.lines.specs.Depth.{eight};
ghost use Rattle.lines.specs.Tables.{alpha_at, beta_at, tc0_at};
ghost use Rattle.lines.specs.Thresholds.{qpc_of};
ghost use Rattle.lines.specs.Inner.{tables, cap_row};

static TABLES: [u8; 416] = [
    0, 0, 0, 0, 0, 0, 0, 0, 0, 0, 0, 0, 0, 0, 0, 0, 4, 4, 5, 6, 7, 8, 9, 10, 12, 13, 15, 17, 20,
    22, 25, 28, 32, 36, 40, 45, 50, 56, 63, 71, 80, 90, 101, 113, 127, 144, 162, 182, 203, 226,
    255, 255, 0, 0, 0, 0, 0, 0, 0, 0, 0, 0, 0, 0, 0, 0, 0, 0, 2, 2, 2, 3, 3, 3, 3, 4, 4, 4, 6, 6,
    7, 7, 8, 8, 9, 9, 10, 10, 11, 11, 12, 12, 13, 13, 14, 14, 15, 15, 16, 16, 17, 17, 18, 18, 0, 1,
    1, 1, 0, 0, 1, 1, 1, 0, 0, 1, 1, 1, 0, 0, 1, 1, 1, 0, 0, 1, 1, 1, 0, 0, 1, 1, 1, 0, 0, 1, 1, 1,
    0, 0, 1, 1, 1, 0, 0, 1, 1, 1, 0, 0, 1, 1, 1, 0, 0, 1, 1, 1, 0, 0, 1, 1, 1, 0, 0, 1, 1, 1, 0, 0,
    1, 1, 1, 0, 0, 1, 1, 1, 0, 0, 1, 1, 1, 0, 0, 1, 1, 1, 0, 0, 1, 1, 2, 0, 0, 1, 1, 2, 0, 0, 1, 1,
    2, 0, 0, 1, 1, 2, 0, 0, 1, 2, 2, 0, 0, 1, 2, 2, 0, 0, 2, 2, 2, 0, 0, 2, 2, 2, 0, 0, 2, 2, 2, 0,
    0, 2, 2, 2, 0, 0, 2, 2, 3, 0, 0, 2, 2, 3, 0, 0, 2, 2, 3, 0, 0, 2, 2, 3, 0, 0, 2, 3, 4, 0, 0, 2,
    3, 4, 0, 0, 3, 3, 4, 0, 0, 3, 3, 5, 0, 0, 3, 4, 5, 0, 0, 3, 4, 5, 0, 0, 4, 4, 6, 0, 0, 4, 5, 7,
    0, 0, 4, 5, 7, 0, 0, 5, 6, 8, 0, 0, 5, 6, 9, 0, 0, 5, 7, 10, 0, 0, 6, 8, 11, 0, 0, 7, 9, 12, 0,
    0, 7, 9, 14, 0, 0, 8, 11, 15, 0, 0, 9, 12, 17, 0, 0, 10, 13, 19, 0, 0, 11, 14, 21, 0, 0, 12,
    16, 24, 0, 0, 14, 18, 26, 0, 0, 1, 2, 3, 4, 5, 6, 7, 8, 9, 10, 11, 12, 13, 14, 15, 16, 17, 18,
    19, 20, 21, 22, 23, 24, 25, 26, 27, 28, 29, 29, 30, 31, 32, 32, 33, 34, 34, 35, 35, 36, 36, 37,
    37, 37, 38, 38, 38, 39, 39, 39, 39,
];

// All four, lent for as long as anyone likes.
#[tactic(auto, unfolding(crate::specs::Inner::tables, crate::specs::Tables::alphas, crate::specs::Tables::betas, crate::specs::Tables::tc0s, crate::specs::Tables::qpcs))]
pub fn lent() -> &'static [u8; 416]
    ensures { result.now ≡ tables }
{
    &TABLES
}

// One number of them, whatever i is below 416.
pub fn entry(i: usize) -> u8
    requires { i < 416 }
    ensures { result ≡ get_or tables i 0 }
{
    let t = lent();
    t[i]
}

// alpha' and beta' of an index.
#[tactic(auto, using(crate::proofs::Rulesets::table_parts))]
pub fn alpha_at(i: usize) -> u8
    requires { i < 52 }
    ensures { result ≡ alpha_at i }
{
    entry(i)
}

#[tactic(auto, using(crate::proofs::Rulesets::table_parts))]
pub fn beta_at(i: usize) -> u8
    requires { i < 52 }
    ensures { result ≡ beta_at i }
{
    entry(52 + i)
}

// The cap of a line at index i, by its strength.
#[tactic(auto, using(crate::proofs::Rulesets::table_parts))]
pub fn cap_at(i: usize, s: usize) -> u8
    requires i_bound { i < 52 }
    requires s_bound { s < 5 }
    ensures { result ≡ get_or (cap_row eight i) s 0 }
{
    entry(104 + (5 * i + s))
}

// tC0 for bS = s + 1.
pub fn tc0_at(i: usize, s: usize) -> u8
    requires i_bound { i < 52 }
    requires s_bound { s < 3 }
    ensures { result ≡ tc0_at i s }
{
    cap_at(i, s + 1) - 1
}

// QPC of qPI = i.
#[tactic(auto, using(crate::proofs::Rulesets::table_parts))]
pub fn qpc_at(i: usize) -> u8
    requires { i < 52 }
    ensures { pos result ≡ qpc_of (pos i) }
{
    entry(364 + i)
}

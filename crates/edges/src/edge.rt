// Edges of a macroblock, whose lines are filtered by `batches`: vertical and horizontal edges are one
// function. The strengths of an edge's four segments are the first four of `strengths`.
// Kept: (1) that `strengths` has as many as are read is asked: `&[u8; 4]` and `&[u8; 12]` would ask more of
// who calls `luma_edge`, `chroma_edge` and `chroma_edges`, which docs/PROMISES.md names. (4) That the lines
// lie in the plane: a fact of two values, plane and lines. u and v apart: of a struct of two `&mut` each
// function would have to say too that they are still the planes that were lent.
ghost use Rattle.std.specs.Prelude.{◌≡◌, ◌+◌, ◌*◌, ◌<◌, ◌≤◌, length};
ghost use Rattle.lines.specs.Depth.{eight};
ghost use Rattle.batches.specs.Lines.{InTables, Straight};
ghost use Rattle.edges.specs.Edge.{luma_edge, chroma_edge};
ghost use Rattle.edges.specs.Levels.{four_of, both_of, thresholds_by, luma_level, chroma_level};
ghost use Rattle.edges.specs.Macroblock.{after};
ghost use Rattle.edges.specs.Picture.{entries};

use crate::levels::{ChromaWay, Level};
use batches::chroma::{chroma_lines, chroma_pair};
use batches::lanes::{Both, Four, Single, Thresholds};
use batches::luma::luma_lines;
use batches::places::Lines;
use lines::limits::thresholds;

// The strengths of an edge's four segments. Kept: (4) a function: `From` may ask nothing of the slice's
// length.
fn four_strengths(strengths: &[u8]) -> Four
    requires { 4 ≤ length strengths.now }
    ensures { result ≡ four_of (entries strengths.now) }
{
    Four {
        a: strengths[0],
        b: strengths[1],
        c: strengths[2],
        d: strengths[3],
    }
}

// The thresholds of an edge, found before a line is touched; an alpha of 0 where no line can change.
fn of_edge(l: Level) -> Thresholds
    ensures is { result ≡ thresholds_by eight l }
    ensures within { result.index < 52 }
{
    Thresholds::from(thresholds(l.qp, l.a, l.b))
}

// What an edge is filtered with in both chroma planes.
fn both(strengths: &[u8], u: Level, v: Level) -> Both
    requires { 4 ≤ length strengths.now }
    ensures is { result ≡ both_of (entries strengths.now) (thresholds_by eight u) (thresholds_by eight v) }
    ensures within { InTables result }
{
    Both {
        s: four_strengths(strengths),
        u: of_edge(u),
        v: of_edge(v),
    }
}

// A luma edge. Kept: (4) beside chroma's: of the lines it asks more, and what it calls is another function.
pub fn luma_edge(plane: &mut [u8], lines: Lines, strengths: &[u8], l: Level)
    requires inside { (lines.at + 15 * lines.along + 7 * lines.step < length plane.old) × (4 ≤ length strengths.now) }
    requires straight { Straight 16 lines.along lines.step }
    ensures { plane.new ≡ luma_edge (luma_level eight l) (entries strengths.now) lines.at lines.along lines.step plane.old }
{
    let e = Single {
        s: four_strengths(strengths),
        by: of_edge(l),
    };
    luma_lines(plane, lines, e);
}

// An edge of one chroma plane. Kept: (4) beside luma's, which asks of its lines that they be straight.
pub fn chroma_edge(plane: &mut [u8], lines: Lines, strengths: &[u8], l: Level)
    requires { (lines.at + 7 * lines.along + 3 * lines.step < length plane.old) × (4 ≤ length strengths.now) }
    ensures { plane.new ≡ chroma_edge (chroma_level eight l) (entries strengths.now) lines.at lines.along lines.step plane.old }
{
    let e = Single {
        s: four_strengths(strengths),
        by: of_edge(l),
    };
    chroma_lines(plane, lines, e);
}

// Both edges of a direction in both chroma planes, by the strengths of luma's edges 0 and 2.
pub fn chroma_edges(u: &mut [u8], v: &mut [u8], lines: Lines, strengths: &[u8], by: ChromaWay)
    requires inside { (lines.at + 7 * lines.along + 7 * lines.step < length u.old) × (lines.at + 7 * lines.along + 7 * lines.step < length v.old) × (12 ≤ length strengths.now) }
    requires straight { Straight 8 lines.along lines.step }
    ensures u_after { u.new ≡ chroma_edge (chroma_level eight by.u.inside) (after 8 (entries strengths.now)) (lines.at + 4 * lines.step) lines.along lines.step (chroma_edge (chroma_level eight by.u.border) (entries strengths.now) lines.at lines.along lines.step u.old) }
    ensures v_after { v.new ≡ chroma_edge (chroma_level eight by.v.inside) (after 8 (entries strengths.now)) (lines.at + 4 * lines.step) lines.along lines.step (chroma_edge (chroma_level eight by.v.border) (entries strengths.now) lines.at lines.along lines.step v.old) }
{
    let border = both(strengths, by.u.border, by.v.border);
    let inside = both(&strengths[8..], by.u.inside, by.v.inside);
    chroma_pair(u, v, lines, border, inside);
}

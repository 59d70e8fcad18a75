// The calls that read a stream.
// Kept: (4) the product of the sides for `Size::count`, which asks that check 1 passes: of a size that was
// read `GoodSize` says its bounds alone; (4) luma, u, v for a struct, which `ReadOutcome` would take apart:
// `Planes` of edges is the filter's, on which this crate does not stand.
ghost use Rattle.std.specs.Prelude.{◌≡◌, ◌+◌, ◌*◌, ◌≤◌, length, take, drop};
ghost use Rattle.laws.specs.Refusal.{refusal};
ghost use Rattle.refusals.specs.Refusals.{number_of};
ghost use Rattle.y4m.specs.Calls.{found_of, stream_checks, LookOutcome, ReadOutcome, IfGoodSize};
ghost use Rattle.y4m.specs.Places.{NextLine, SeenIn};

use crate::copy::copy_all;
use crate::header::check_lines;
use crate::text::split_once;
use refusals::Refusal;
use sizes::{Size, bad_planes};

// A stream's first line, and what is behind it.
fn next_line(stream: &[u8]) -> Result<(&[u8], &[u8]), Refusal>
    ensures { NextLine stream.now result }
{
    split_once(stream, b'\n').ok_or(Refusal::Malformed)
}

// What a stream holds: a size, and planes behind its two lines.
#[derive(Drop)]
struct Stream<'a> {
    size: Size,
    planes: &'a [u8],
}

// Checks 15 to 18.
fn see(stream: &[u8]) -> Result<Stream<'_>, Refusal>
    ensures number { number_of result ≡ refusal (stream_checks stream.now) }
    ensures seen { SeenIn stream.now result }
{
    let (line, rest) = next_line(stream)?;
    let (frame, planes) = next_line(rest)?;
    let size = check_lines(line, frame)?;
    if planes.len() < 384 * (size.w * size.h) {
        return Err(Refusal::Stream);
    }
    Ok(Stream { size, planes })
}

// The size of the first picture.
pub fn look(stream: &[u8]) -> Result<Size, Refusal>
    ensures outcome { LookOutcome stream.now (found_of result) }
    ensures good { IfGoodSize result }
{
    let seen = see(stream)?;
    Ok(seen.size)
}

// The planes of n macroblocks, one after the other.
fn place(planes: &[u8], n: usize, luma: &mut [u8], u: &mut [u8], v: &mut [u8])
    requires n_bound { (n ≤ 36864) × (384 * n ≤ length planes.now) }
    requires luma_len { (length luma.old ≡ 256 * n) × (length u.old ≡ 64 * n) × (length v.old ≡ 64 * n) }
    ensures { (luma.new ≡ take (256 * n) planes.now) × (u.new ≡ take (64 * n) (drop (256 * n) planes.now)) × (v.new ≡ take (64 * n) (drop (320 * n) planes.now)) }
{
    copy_all(&planes[..256 * n], luma);
    copy_all(&planes[256 * n..320 * n], u);
    copy_all(&planes[320 * n..384 * n], v);
}

// Its planes.
pub fn read(stream: &[u8], luma: &mut [u8], u: &mut [u8], v: &mut [u8]) -> Result<Size, Refusal>
    ensures outcome { ReadOutcome stream.now luma.old u.old v.old (found_of result) luma.new u.new v.new }
    ensures good { IfGoodSize result }
{
    let Stream { size, planes } = see(stream)?;
    let n = size.w * size.h;
    if bad_planes(n, luma.len(), u.len(), v.len()) {
        return Err(Refusal::Planes);
    }
    place(planes, n, luma, u, v);
    Ok(size)
}

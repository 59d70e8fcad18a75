// The calls that write a stream.
// Kept: (4) that a side can be written is asked of each by one name (`Pixels`): a type for it would be made
// twice in `write`, and taken apart where its digits are put; (4) luma, u, v for a struct, which
// `WriteOutcome` would take apart: `Planes` of edges is lent to be changed, and is the filter's, on which
// this crate does not stand.
ghost use Rattle.std.specs.Prelude.{◌≡◌, true, false, MatchResult, ◌++◌, ◌+◌, ◌*◌, ◌≤◌, length};
ghost use Rattle.refusals.specs.Refusals.{number_of};
ghost use Rattle.refusals.specs.declared.Refusal.TheVariants.{Size as TooLarge};
ghost use Rattle.sizes.specs.Sizes.{bad_size};
ghost use Rattle.y4m.specs.Text.{decimal};
ghost use Rattle.y4m.specs.Stream.{lines_with};
ghost use Rattle.y4m.specs.Calls.{LengthOutcome, WriteOutcome, length_for};
ghost use Rattle.y4m.specs.Places.{Put, Pixels, digit_count, digit_of, four_digits};

use crate::copy::copy_all;
use refusals::Refusal;
use sizes::{Size, bad_planes, bad_size};

// How many digits a side in pixels has: from 16 to 4096 two to four.
fn digits(n: usize) -> usize
    ensures lower_bound { (2 ≤ result) × (result ≤ 4) }
    ensures value { result ≡ digit_count n }
{
    match n {
        0..=99 => 2,
        100..=999 => 3,
        _ => 4,
    }
}

// The length of a stream of a size that is not refused.
fn whole(size: Size) -> usize
    requires { bad_size size ≡ false }
    ensures { result ≡ length_for size }
{
    30 + digits(16 * size.w) + digits(16 * size.h) + 384 * size.count()
}

// How long a stream of a picture is.
pub fn checked_length(size: Size) -> Result<usize, Refusal>
    ensures { MatchResult result (λ n. (bad_size size ≡ false) × (n ≡ length_for size)) (λ e. (bad_size size ≡ true) × (e ≡ TooLarge)) }
{
    if bad_size(size) {
        return Err(Refusal::Size);
    }
    Ok(whole(size))
}

// .. or 0 where its size is refused. Kept: (1) the C interface has this answer (`LengthOutcome`).
pub fn length(size: Size) -> usize
    ensures { LengthOutcome size result }
{
    checked_length(size).unwrap_or(0)
}

// Puts a text at a place of the stream, and answers where it ends. Kept: (4) by `split_at_mut` each of the
// five pieces of the two lines has its length beside it, which is no plainer.
fn put(stream: &mut [u8], at: usize, text: &[u8]) -> usize
    requires { at + length text.now ≤ length stream.old }
    ensures { Put stream.old at text.now result stream.new }
{
    copy_all(text, &mut stream[at..]);
    at + text.len()
}

// The last digit of a number. Kept: (4) the cast loses nothing, which `try_from` would have to be told anew.
fn last_digit(n: usize) -> u8
    ensures { result ≡ digit_of n }
{
    b'0' + (n % 10) as u8
}

// The last four digits, zeros in front. Kept: (4) a formatter into a buffer of its own, from which the text
// is then copied, is no plainer for at most four digits.
fn four(n: usize) -> [u8; 4]
    ensures value { 4 ≡ length result }
    ensures value_2 { result ≡ four_digits n }
{
    let tens = n / 10;
    let hundreds = tens / 10;
    [
        last_digit(hundreds / 10),
        last_digit(hundreds),
        last_digit(tens),
        last_digit(n),
    ]
}

// Puts a side in pixels.
fn put_number(stream: &mut [u8], at: usize, n: usize) -> usize
    requires { Pixels n × (at + digit_count n ≤ length stream.old) }
    ensures { Put stream.old at (decimal n) result stream.new }
{
    let text = four(n);
    let from = 4 - digits(n);
    put(stream, at, &text[from..])
}

// Puts the two lines, for a width and a height in pixels.
fn put_lines(stream: &mut [u8], w: usize, h: usize) -> usize
    requires { Pixels w × Pixels h × (30 + digit_count w + digit_count h ≤ length stream.old) }
    ensures { Put stream.old 0 (lines_with w h) result stream.new }
{
    let a = put(stream, 0, b"YUV4MPEG2 W");
    let b = put_number(stream, a, w);
    let c = put(stream, b, b" H");
    let d = put_number(stream, c, h);
    put(stream, d, b" C420mpeg2\nFRAME\n")
}

// Puts lines and planes.
fn put_all(stream: &mut [u8], w: usize, h: usize, luma: &[u8], u: &[u8], v: &[u8])
    requires { Pixels w × Pixels h × (length stream.old ≡ 30 + digit_count w + digit_count h + length luma.now + length u.now + length v.now) }
    ensures { stream.new ≡ lines_with w h ++ luma.now ++ u.now ++ v.now }
{
    let a = put_lines(stream, w, h);
    let b = put(stream, a, luma);
    let c = put(stream, b, u);
    put(stream, c, v);
}

// Writes a stream of one picture.
pub fn write(size: Size, luma: &[u8], u: &[u8], v: &[u8], stream: &mut [u8]) -> Result<(), Refusal>
    ensures { WriteOutcome size luma.now u.now v.now stream.old (number_of result) stream.new }
{
    let whole = checked_length(size)?;
    if bad_planes(size.count(), luma.len(), u.len(), v.len()) {
        return Err(Refusal::Planes);
    }
    if stream.len() != whole {
        return Err(Refusal::Stream);
    }
    put_all(stream, 16 * size.w, 16 * size.h, luma, u, v);
    Ok(())
}

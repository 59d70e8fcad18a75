// The two lines of a stream, and the checks of them: 15, 16 and 17.
ghost use Rattle.std.specs.Prelude.{◌≡◌, []};
ghost use Rattle.laws.specs.Refusal.{refusal};
ghost use Rattle.refusals.specs.Refusals.{number_of};
ghost use Rattle.y4m.specs.Text.{tags_of, values_of};
ghost use Rattle.y4m.specs.Stream.{well_formed, is_ours};
ghost use Rattle.y4m.specs.Places.{OneNumber, form_checks, colour_checks, side_checks, line_checks, SizeOf, SizeIn};

use crate::text::{first_word, has_no_gap, is_decimal, tagged, value};
use refusals::Refusal;
use sizes::{Size, bad_size};

fn is_well_formed(line: &[u8], first: &[u8]) -> bool
    ensures { result ≡ well_formed first.now line.now }
{
    first_word(line) == first && has_no_gap(line)
}

fn check_form(line: &[u8], first: &[u8]) -> Result<(), Refusal>
    ensures { number_of result ≡ refusal (form_checks first.now line.now) }
{
    if is_well_formed(line, first) {
        Ok(())
    } else {
        Err(Refusal::Malformed)
    }
}

// The number of a tag t, in pixels, which is to be there once.
fn side(line: &[u8], t: u8) -> Result<usize, Refusal>
    ensures { OneNumber (values_of t (tags_of line.now)) result }
{
    match tagged(line, t)? {
        Some(digits) if is_decimal(digits) => Ok(value(digits)),
        _ => Err(Refusal::Malformed),
    }
}

fn is_ours(c: &[u8]) -> bool
    ensures { result ≡ is_ours c.now }
{
    let ours = [
        b"420".as_slice(),
        b"420jpeg".as_slice(),
        b"420mpeg2".as_slice(),
        b"420paldv".as_slice(),
    ];
    ours.contains(&c)
}

// Check 16, of the value of the tag C.
fn check_colours(c: Option<&[u8]>) -> Result<(), Refusal>
    ensures { number_of result ≡ refusal (colour_checks c.entry) }
{
    match c {
        Some(c) if !is_ours(c) => Err(Refusal::OtherPlanes),
        _ => Ok(()),
    }
}

// Check 17, of sides in pixels; and the size in macroblocks.
fn size_of(w: usize, h: usize) -> Result<Size, Refusal>
    ensures number { number_of result ≡ refusal (side_checks w h) }
    ensures size { SizeOf w h result }
{
    let size = Size {
        w: w / 16,
        h: h / 16,
    };
    if w % 16 != 0 || h % 16 != 0 || bad_size(size) {
        return Err(Refusal::Sides);
    }
    Ok(size)
}

// Checks 15 to 17 of a header line and a FRAME line.
pub fn check_lines(line: &[u8], frame: &[u8]) -> Result<Size, Refusal>
    ensures number { number_of result ≡ refusal (line_checks line.now frame.now) }
    ensures size { SizeIn line.now result }
{
    check_form(line, b"YUV4MPEG2")?;
    let w = side(line, b'W')?;
    let h = side(line, b'H')?;
    let c = tagged(line, b'C')?;
    check_form(frame, b"FRAME")?;
    check_colours(c)?;
    size_of(w, h)
}

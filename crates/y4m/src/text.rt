// The words of a stream's lines, and numbers.
ghost use Rattle.std.specs.Prelude.{◌≡◌, ◌+◌, ◌*◌, ◌-◌, ◌≤◌, MatchOption, MatchResult, ◌∷◌, [], ◌++◌, ◌<◌, true, length, option_map};
ghost use Rattle.refusals.specs.declared.Refusal.TheVariants.{Malformed};
ghost use Rattle.y4m.specs.Text.{parts, part, words_of, tags_of, values_of, is_full, all, is_decimal, value_of};
ghost use Rattle.y4m.specs.Places.{SplitAt, Tagged, capped, is_tag};

use refusals::Refusal;

// A text at its first byte b: what stands before it, and what behind. Nothing where there is none.
pub fn split_once(s: &[u8], b: u8) -> Option<(&[u8], &[u8])>
    ensures { SplitAt b s.now result }
{
    let i = s.iter().position(|x| *x == b)?;
    Some((&s[..i], &s[i + 1..]))
}

pub fn first_word(line: &[u8]) -> &[u8]
    ensures { result.now ≡ part 0 (words_of line.now) }
{
    match split_once(line, b' ') {
        Some((word, _)) => word,
        None => line,
    }
}

// Whether no word of the line is empty.
pub fn has_no_gap(line: &[u8]) -> bool
    ensures { result ≡ all is_full (words_of line.now) }
{
    line.split(|b| *b == b' ').all(|word| !word.is_empty())
}

fn is_tag(word: &[u8], t: u8) -> bool
    ensures { result ≡ is_tag t word.now }
{
    word.starts_with(&[t])
}

// The value of a line's tag t, where it has that tag. Refused where it has it twice.
pub fn tagged(line: &[u8], t: u8) -> Result<Option<&[u8]>, Refusal>
    ensures { Tagged (values_of t (tags_of line.now)) result }
{
    let mut tags = line
        .split(|b| *b == b' ')
        .skip(1)
        .filter(|word| is_tag(word, t));
    let Some(tag) = tags.next() else {
        return Ok(None);
    };
    let twice = tags.next().is_some();
    if twice {
        return Err(Refusal::Malformed);
    }
    Ok(tag.get(1..))
}

pub fn is_decimal(s: &[u8]) -> bool
    ensures { result ≡ is_decimal s.now }
{
    !s.is_empty() && s.iter().all(|b| b.is_ascii_digit())
}

// A number n and one digit more.
fn appended(n: usize, d: u8) -> usize
    requires { n ≤ 4097 }
    ensures upper_bound { result ≤ 4097 }
    ensures value { result ≡ capped (10 * n + (d - 48)) }
{
    (10 * n + usize::from(d.saturating_sub(b'0'))).min(4097)
}

// The value of decimal digits. It never wraps: whatever is above 4096 is 4097.
pub fn value(s: &[u8]) -> usize
    ensures { result ≡ capped (value_of s.now) }
{
    let mut n = 0;
    for d in s {
        n = appended(n, *d);
    }
    n
}

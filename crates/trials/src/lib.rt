// What the programs that try streams and recordings share: files read into fixed space, and verdicts.
//
// What a file holds and what is written lie outside of a program, and std's printing and reading say nothing
// of them. So it is proved that they are safe and end, and that the space keeps its length.
#![tactic(auto)]

ghost use Rattle.std.specs.Prelude.{◌≡◌, ◌≤◌, length};

use std::fmt;
use std::fmt::{Display, Formatter, Write};
use std::io::Read;

// Whether what was made is what it was to be.
#[derive(Clone, Copy, Debug, PartialEq, Eq)]
pub struct Verdict(pub bool);

impl Display for Verdict {
    fn fmt<W: Write>(&self, f: &mut Formatter<W>) -> fmt::Result {
        f.write_str(if self.0 { "equal" } else { "DIFFERENT" })
    }
}

// Reads to the end of the file or of s, and answers how many bytes that were. A read that fails ends it too.
// Kept: (4) the step is what a read answered, so no `for` counts it.
pub fn read_full(file: &mut impl Read, s: &mut [u8]) -> usize
    ensures upper_bound { result ≤ length s.old }
    ensures len { length s.new ≡ length s.old }
{
    let mut at = 0;
    while at < s.len() {
        match file.read(&mut s[at..]) {
            Ok(0) | Err(_) => break,
            Ok(n) => at += n,
        }
    }
    at
}

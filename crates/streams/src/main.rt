// Reads streams of YUV4MPEG2: some worked out by hand, each with one fault, and those of other programs
// (README.md). The first argument names raw planes, the others streams whose first picture has those planes.
#![tactic(auto)]

ghost use Rattle.std.specs.Prelude.{◌≡◌, ◌≤◌, IfOk, OnErr, length};

use refusals::{Refusal, number};
use sizes::Size;
use std::env::Args;
use std::io::Write;
use std::rt::Files;
use std::{env, fs, io};
use trials::{Verdict, read_full};
use y4m::reader::{look, read};
use y4m::writer::write;

// Planes for a picture that has Y luma and C samples of each chroma plane. Kept: (4) they hold their samples,
// as `Planes` of edges do not, and this program does not stand on the filter.
#[derive(Drop)]
struct Planes<const Y: usize, const C: usize> {
    luma: [u8; Y],
    u: [u8; C],
    v: [u8; C],
}

impl<const Y: usize, const C: usize> Planes<Y, C> {
    fn blank() -> Planes<Y, C> {
        Planes {
            luma: [0; Y],
            u: [0; C],
            v: [0; C],
        }
    }

    fn read(&mut self, stream: &[u8]) -> Result<(), Refusal> {
        read(stream, &mut self.luma, &mut self.u, &mut self.v)?;
        Ok(())
    }

    // Whether the planes are these bytes, one after the other.
    fn is(&self, raw: &[u8]) -> bool {
        let Some(chroma) = raw.strip_prefix(&self.luma) else {
            return false;
        };
        let Some(v) = chroma.strip_prefix(&self.u) else {
            return false;
        };
        v == self.v.as_slice()
    }
}

// What a reader answers that has planes for one macroblock.
fn answer(rt: &impl Print, name: &str, stream: &[u8]) -> io::Result<()> {
    let found = Planes::<256, 64>::blank().read(stream);
    println!(rt; "{name}: {}", number(found))
}

// One macroblock, written: 34 bytes of lines and 384 of planes.
fn written(rt: &impl Print) -> io::Result<()> {
    let mut stream = [0; 418];
    let size = Size { w: 1, h: 1 };
    let _ = write(size, &[1; 256], &[2; 64], &[3; 64], &mut stream);
    io::writer(rt).write_all(&stream[0..34])?;
    answer(rt, "as it was written", &stream)?;
    answer(rt, "its last byte missing", &stream[0..417])
}

// Streams without planes: what is wrong with each comes before 18.
fn by_hand(rt: &impl Print) -> io::Result<()> {
    let faulty = [
        ("no stream", b"".as_slice()),
        ("another format", b"RIFF W16 H16\nFRAME\n"),
        ("no height", b"YUV4MPEG2 W16\nFRAME\n"),
        ("two widths", b"YUV4MPEG2 W16 H16 W16\nFRAME\n"),
        ("two spaces", b"YUV4MPEG2  W16 H16\nFRAME\n"),
        ("a carriage return", b"YUV4MPEG2 W16 H16\r\nFRAME\n"),
        ("FRAME without its newline", b"YUV4MPEG2 W16 H16\nFRAME"),
        ("other planes", b"YUV4MPEG2 W16 H16 C444\nFRAME\n"),
        (
            "other planes, and no FRAME",
            b"YUV4MPEG2 W16 H16 C444\nFRAM\n",
        ),
        ("no multiple of 16", b"YUV4MPEG2 W16 H24\nFRAME\n"),
        (
            "2 to the 64th and 16 wide",
            b"YUV4MPEG2 W18446744073709551632 H16\nFRAME\n",
        ),
        ("no planes", b"YUV4MPEG2 W16 H16\nFRAME\n"),
    ];
    for (name, stream) in faulty {
        answer(rt, name, stream)?;
    }
    Ok(())
}

// Reads the first picture, writes it anew and reads what was written.
fn picture(rt: &impl Print, stream: &[u8], raw: &[u8]) -> io::Result<()> {
    let mut first = Planes::<1536, 384>::blank();
    let found = first.read(stream);
    print!(rt; "{}, planes {}", number(found), Verdict(first.is(raw)))?;
    let mut anew = [0; 2338];
    let done = write(
        Size { w: 3, h: 2 },
        &first.luma,
        &first.u,
        &first.v,
        &mut anew,
    );
    let mut second = Planes::<1536, 384>::blank();
    let again = second.read(&anew);
    let good = done.is_ok() && again.is_ok() && second.is(raw);
    println!(rt; ", written and read again {}", Verdict(good))
}

fn size(rt: &impl Print, stream: &[u8]) -> io::Result<()> {
    let found = look(stream).unwrap_or(Size { w: 0, h: 0 });
    print!(rt; ": {} by {} macroblocks, ", found.w, found.h)
}

// Reads the file into s, and answers how many bytes that were; none where it cannot be opened. An error is
// that of printing the name, before anything is read. Kept: (4) no bytes for no file: the reader refuses both
// alike.
fn load(rt: &(impl Files + Print), name: &str, s: &mut [u8]) -> io::Result<usize>
    ensures upper_bound { IfOk result (λ n. n ≤ length s.old) }
    ensures unread { OnErr result (s.new ≡ s.old) }
{
    let Ok(mut file) = fs::open(rt, name) else {
        return Ok(0);
    };
    print!(rt; "{name}")?;
    Ok(read_full(&mut file, s))
}

// A stream of another program. Kept: (4) fixed space and how much of it was filled, here and in `main`: a
// file may have no end, and `read_full` says how much it read.
fn argument(rt: &(impl Files + Print), name: &str, raw: &[u8]) -> io::Result<()> {
    let mut space = [0; 65536];
    let k = load(rt, name, &mut space)?;
    let stream = &space[..k];
    size(rt, stream)?;
    picture(rt, stream, raw)
}

fn arguments(rt: &(impl Files + Print), names: Args, raw: &[u8]) -> io::Result<()> {
    for name in names {
        argument(rt, name.as_str(), raw)?;
    }
    Ok(())
}

fn main(rt: HostRuntime) -> io::Result<()> {
    written(&rt)?;
    by_hand(&rt)?;
    let mut names = env::args(&rt)?;
    let _ = names.next();
    let mut raw = [0; 2304];
    if let Some(name) = names.next() {
        load(&rt, name.as_str(), &mut raw)?;
    }
    println!(rt;)?;
    arguments(&rt, names, &raw)
}

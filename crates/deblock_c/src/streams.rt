// The calls that read and write pictures as streams of YUV4MPEG2, for C.
// Kept: (1) flat parameters, numbers for answers, one function a call: the C interface.
ghost use Rattle.y4m.specs.Calls.{LookOutcome, ReadOutcome, LengthOutcome, WriteOutcome};
ghost use Rattle.deblock.specs.Numbers.{size_of};

use y4m::Found;

// The size of a stream's first picture.
#[unsafe(no_mangle)]
pub extern "C" fn deblock_y4m_look(stream: &[u8]) -> Found
    ensures { LookOutcome stream.now result }
{
    deblock::streams::deblock_y4m_look(stream)
}

// Its planes.
#[unsafe(no_mangle)]
pub extern "C" fn deblock_y4m_read(
    stream: &[u8],
    luma: &mut [u8],
    u: &mut [u8],
    v: &mut [u8],
) -> Found
    ensures { ReadOutcome stream.now luma.old u.old v.old result luma.new u.new v.new }
{
    deblock::streams::deblock_y4m_read(stream, luma, u, v)
}

// How long a stream of one picture is; 0 where its size is refused.
#[unsafe(no_mangle)]
pub extern "C" fn deblock_y4m_length(w: usize, h: usize) -> usize
    ensures { LengthOutcome (size_of w h) result }
{
    deblock::streams::deblock_y4m_length(w, h)
}

// Writes it.
#[unsafe(no_mangle)]
pub extern "C" fn deblock_y4m_write(
    w: usize,
    h: usize,
    luma: &[u8],
    u: &[u8],
    v: &[u8],
    stream: &mut [u8],
) -> u32
    ensures { WriteOutcome (size_of w h) luma.now u.now v.now stream.old result stream.new }
{
    deblock::streams::deblock_y4m_write(w, h, luma, u, v, stream)
}

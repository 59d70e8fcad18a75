// Bytes copied two at a time. Kept: (1) rule of the project: of one at a time, as of `copy_from_slice`, the
// compiler makes a call of C's memcpy, and the archive for C is to need no library (`examples/run` holds it
// to that); (4) a `while`: after chunks of two a last byte is left over as it is here, and both lists would
// be cut in chunks.
ghost use Rattle.std.specs.Prelude.{◌≡◌, ◌++◌, ◌≤◌, length, drop};

pub fn copy_all(from: &[u8], to: &mut [u8])
    requires { length from.now ≤ length to.old }
    ensures { to.new ≡ from.now ++ drop (length from.now) to.old }
{
    let mut i = 0;
    while i + 1 < from.len() {
        to[i] = from[i];
        to[i + 1] = from[i + 1];
        i += 2;
    }
    if i < from.len() {
        to[i] = from[i];
    }
}

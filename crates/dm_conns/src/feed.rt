//! The bytes of a stream that are read one piece after another.
ghost use Rattle.std.specs.Prelude.{◌≡◌, ◌≤◌, ◌<◌, ◌+◌, ◌^◌, length, min, take, drop};

/// What is left of a stream.
fn left_of(stream: &[u8], given: usize) -> &[u8]
    requires { given ≤ length stream.now }
    ensures left { result.now ≡ drop given stream.now }
    ensures fits { given + length result.now < 2 ^ 64 }
{
    &stream[given..]
}

/// Copies the next bytes of a stream to the buffer's front, and says how many.
pub(crate) fn feed(stream: &[u8], given: usize, buf: &mut [u8]) -> usize
    requires { given ≤ length stream.now }
    ensures size { result ≡ min (length buf.old) (length (drop given stream.now)) }
    ensures bytes { take result buf.new ≡ take result (drop given stream.now) }
    ensures room { length buf.new ≡ length buf.old }
    ensures fits { given + result ≤ length stream.now }
{
    let left = left_of(stream, given);
    let size = buf.len().min(left.len());
    buf[..size].copy_from_slice(&left[..size]);
    size
}

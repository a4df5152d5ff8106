// Copying the front of one slice to the front of another.
ghost use Rattle.std.specs.Prelude.{◌≡◌, min, ◌++◌, length, take, drop};

// Copies as many bytes as there are and as fit, and answers how many.
pub(crate) fn copy_front(bytes: &[u8], buf: &mut [u8]) -> usize
    ensures count { result ≡ min (length bytes.now) (length buf.old) }
    ensures moved { buf.new ≡ take result bytes.now ++ drop result buf.old }
{
    let k = bytes.len().min(buf.len());
    buf[0..k].copy_from_slice(&bytes[0..k]);
    k
}

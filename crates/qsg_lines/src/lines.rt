//! The lines of bytes. A line ends with a line feed; a carriage return before it is dropped.

ghost use Rattle.std.specs.Prelude.{◌≡◌, ◌+◌, ◌<◌, ◌≤◌, ◌∷◌, length};
ghost use Rattle.qsg_lines.specs.Lines.{lines_of, without_return};

const LINE_FEED: u8 = b'\n';

const CARRIAGE_RETURN: u8 = b'\r';

/// Bytes without the carriage return that is their last.
fn drop_return(bytes: &[u8]) -> &[u8]
    ensures value { result.now ≡ without_return bytes.now }
    ensures short { length result.now ≤ length bytes.now }
{
    let len = bytes.len();
    if len > 0 && bytes[len - 1] == CARRIAGE_RETURN {
        &bytes[..len - 1]
    } else {
        bytes
    }
}

/// The first line, and what stands behind it.
pub fn split_line(bytes: &[u8]) -> (&[u8], &[u8])
    requires { 0 < length bytes.now }
    ensures lines { lines_of bytes.now ≡ result.0.now ∷ lines_of result.1.now }
    ensures shorter { length result.1.now < length bytes.now }
    ensures fits { length result.0.now + length result.1.now ≤ length bytes.now }
{
    for (at, byte) in bytes.iter().enumerate() {
        if *byte == LINE_FEED {
            return (drop_return(&bytes[..at]), &bytes[at + 1..]);
        }
    }
    (bytes, &bytes[bytes.len()..])
}

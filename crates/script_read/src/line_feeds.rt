//! Where a text parts into lines.
ghost use Rattle.std.specs.Prelude.{◌≡◌, ◌==◌, ◌<◌, ◌∷◌, length};
ghost use Rattle.memchr.specs.Find.{IsFirstByte};
ghost use Rattle.script_read.specs.Lines.{is_blank, lines_of};

use memchr::memchr;

/// Where the first line feed stands.
fn line_end(bytes: &[u8]) -> Option<usize>
    ensures { IsFirstByte (λ byte. byte == 10) bytes.now result }
{
    memchr(b'\n', bytes)
}

/// The bytes before the first line feed, and those after it: all bytes and none, where there is no line feed.
pub fn first_line(bytes: &[u8]) -> (&[u8], &[u8])
    requires { 0 < length bytes.now }
    ensures lines { lines_of bytes.now ≡ result.0.now ∷ lines_of result.1.now }
    ensures shorter { length result.1.now < length bytes.now }
{
    match line_end(bytes) {
        Some(end) => (&bytes[..end], &bytes[end + 1..]),
        None => (bytes, &bytes[bytes.len()..]),
    }
}

/// Whether the line has only spaces, tabs and carriage returns.
pub fn has_nothing(line: &[u8]) -> bool
    ensures { result ≡ is_blank line.now }
{
    line.iter()
        .all(|byte| *byte == b' ' || *byte == b'\t' || *byte == b'\r')
}

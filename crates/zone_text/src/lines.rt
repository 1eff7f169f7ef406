//! The lines of a text.
ghost use Rattle.std.specs.Prelude.{◌≡◌, ◌<◌, ◌≤◌, ◌+◌, ◌^◌, length, take, ◌==◌, Some, None, Option};
ghost use Rattle.zone_text.specs.Prelude.{position, strip_carriage_return, FirstLine};

// The index of the first line feed.
fn first_feed(text: &[u8]) -> Option<usize>
    ensures { result ≡ position (λ b. b == 10) text.now }
{
    text.iter().position(|b| *b == b'\n')
}

// The length of a line without the carriage return at its end.
fn stripped(line: &[u8]) -> usize
    ensures stripped { take result line.now ≡ strip_carriage_return line.now }
    ensures small { result ≤ length line.now }
{
    match line.last() {
        Some(13) => line.len() - 1,
        _ => line.len(),
    }
}

/// The end of the line that begins at a byte, and the byte that the next line begins at.
pub fn line_at(bytes: &[u8], at: u32) -> (u32, u32)
    requires inside { at < length bytes.now }
    requires short { length bytes.now ≤ 2 ^ 24 }
    ensures { FirstLine bytes.now at result.0 result.1 }
{
    let rest = &bytes[at as usize..];
    match first_feed(rest) {
        Some(n) => {
            let upto = at + stripped(&rest[..n]) as u32;
            (upto, at + n as u32 + 1)
        }
        None => (bytes.len() as u32, bytes.len() as u32),
    }
}

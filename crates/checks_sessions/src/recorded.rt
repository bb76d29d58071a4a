//! Sessions as a text records them.
ghost use Rattle.std.specs.Prelude.{◌<◌, ◌≤◌, length};

/// A session that a text records.
#[derive(Clone, Copy)]
pub struct Recorded<'a> {
    /// The line of its title, with its LF.
    pub title: &'a [u8],
    /// What it reads.
    pub input: &'a [u8],
}

/// The number of bytes of the first line, with its LF.
pub fn line_len(text: &[u8]) -> usize
    ensures some { 0 < length text.now → 0 < result }
    ensures bound { result ≤ length text.now }
{
    match text.iter().position(|b| *b == b'\n') {
        Some(place) => place + 1,
        None => text.len(),
    }
}

/// The number of bytes of the lines before the next title.
fn input_len(text: &[u8]) -> usize
    ensures { result ≤ length text.now }
{
    let mut length = 0;
    while length < text.len() && !text[length..].starts_with(b"===") {
        length += line_len(&text[length..]);
    }
    length
}

impl<'a> Recorded<'a> {
    /// The first session that a text records, and the text after it.
    pub fn first(text: &'a [u8]) -> (Recorded<'a>, &'a [u8])
        requires { 0 < length text.now }
        ensures { length result.1.now < length text.now }
    {
        let (title, rest) = text.split_at(line_len(text));
        let (lines, after) = rest.split_at(input_len(rest));
        let input = match lines.strip_suffix(b"\n") {
            Some(cut) if title.starts_with(b"===-") => cut,
            _ => lines,
        };
        (Recorded { title, input }, after)
    }
}

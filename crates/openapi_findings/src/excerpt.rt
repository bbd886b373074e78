//! The part of a line that is shown of a text.
ghost use Rattle.std.specs.Prelude.{◌≡◌, ◌≤◌, length};
ghost use Rattle.std.specs.Fmt.{is_char_start};
ghost use Rattle.openapi_findings.specs.Excerpts as spec;

use crate::text_point::text_of;

/// A line of so many bytes is shown as a whole.
const WIDTH: usize = 140;

/// How many characters are shown of a longer line before a point, and from it on.
const BEFORE: usize = 80;

const AFTER: usize = 60;

/// The part of a line around a point of it.
#[derive(Clone, Copy)]
pub(crate) struct Excerpt<'a> {
    pub before: &'a str,
    pub after: &'a str,
    /// The line begins before the part.
    pub is_cut_before: bool,
    /// The line goes on behind the part.
    pub is_cut_after: bool,
}

impl Excerpt<'_> {
    /// Returns the part of a line around an offset of a text. The cost does not depend on how long the line is.
    #[tactic(auto, unfolding(crate::specs::Excerpts::part_around))]
    pub(crate) fn around(bytes: &[u8], offset: usize) -> Excerpt<'_>
        ensures { spec.part_in result ≡ spec.part_around bytes.now offset }
    {
        let offset = offset.min(bytes.len());
        let wide = Excerpt::within(bytes, offset, WIDTH, WIDTH);
        if wide.is_whole() && wide.before.len().saturating_add(wide.after.len()) <= WIDTH {
            wide
        } else {
            Excerpt::within(bytes, offset, BEFORE, AFTER)
        }
    }

    /// Returns the part of a line with so many characters before an offset, and from it on.
    #[tactic(auto, unfolding(crate::specs::Excerpts::part_within))]
    fn within(bytes: &[u8], offset: usize, before: usize, after: usize) -> Excerpt<'_>
        requires { offset ≤ length bytes.now }
        ensures { spec.part_in result ≡ spec.part_within bytes.now offset before after }
    {
        let start = start_of(bytes, offset, before);
        let end = end_of(bytes, offset, after);
        Excerpt {
            before: text_of(&bytes[start..offset]),
            after: without_return(text_of(&bytes[offset..end])),
            is_cut_before: start > 0 && bytes[start - 1] != b'\n',
            is_cut_after: end < bytes.len() && bytes[end] != b'\n',
        }
    }

    /// Returns whether it is the whole line.
    fn is_whole(&self) -> bool
        ensures { result ≡ spec.is_whole (spec.part_in self.now) }
    {
        !self.is_cut_before && !self.is_cut_after
    }
}

/// Returns where the last so many characters of a line before an offset begin.
fn start_of(bytes: &[u8], offset: usize, limit: usize) -> usize
    requires { offset ≤ length bytes.now }
    ensures within { result ≤ offset }
    ensures start { result ≡ spec.start_of bytes.now offset limit }
{
    let mut start = offset;
    let mut count = 0usize;
    for i in 0..offset {
        let byte = bytes[offset - 1 - i];
        if byte == b'\n' || count == limit {
            return start;
        }
        start = offset - 1 - i;
        if begins_character(byte) {
            count = count.saturating_add(1);
        }
    }
    start
}

/// Returns where the first so many characters of a line from an offset on end.
fn end_of(bytes: &[u8], offset: usize, limit: usize) -> usize
    requires { offset ≤ length bytes.now }
    ensures within { (offset ≤ result) × (result ≤ length bytes.now) }
    ensures end { result ≡ spec.end_of bytes.now offset limit }
{
    let mut count = 0usize;
    for i in offset..bytes.len() {
        let byte = bytes[i];
        if byte == b'\n' {
            return i;
        }
        if begins_character(byte) {
            if count == limit {
                return i;
            }
            count = count.saturating_add(1);
        }
    }
    bytes.len()
}

/// Returns whether a byte of text in UTF-8 is the first of its character.
fn begins_character(byte: u8) -> bool
    ensures { result ≡ is_char_start byte }
{
    !matches!(byte, 0x80..=0xBF)
}

/// Returns a line without the carriage return at its end.
fn without_return(line: &str) -> &str
    ensures { result.now ≡ spec.without_return line.now }
{
    match line.as_bytes() {
        [.., b'\r'] => &line[..line.len() - 1],
        _ => line,
    }
}

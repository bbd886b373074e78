//! Where a text stops being JSON.
ghost use Rattle.std.specs.Prelude.{◌≤◌, length};

use crate::nesting::{Nesting, Open};
use json::{Reader, Scratch};
use std::alloc::{AllocError, Global};

/// Why the grammar of JSON stops at a token.
#[derive(Clone, Copy, Debug, PartialEq, Eq)]
pub(crate) enum Stop {
    /// What begins there is no token, or no comma is before it, or one too many.
    Bad,
    /// Another token is expected there.
    Token,
    /// The colon before it makes a name of a text that can be none.
    Colon,
    /// The colon behind a name is missing.
    NoColon,
    /// Arrays and objects are nested too deeply.
    TooDeep,
    /// The number is out of range.
    TooLarge,
    /// The text ends.
    End,
}

/// Where a text stops being JSON.
#[derive(Clone, Copy, Debug)]
pub(crate) struct Stopped {
    pub stop: Stop,
    /// The offset of the token that is not expected.
    pub offset: usize,
    /// The innermost array or object that is not closed there.
    pub inside: Option<Open>,
}

/// Returns where a text stops being JSON, or `None` if it is JSON.
///
/// # Errors
///
/// Returns [`AllocError`] if an allocation fails.
pub(crate) fn stop_of(alloc: Global, text: &str) -> Result<Option<Stopped>, AllocError> {
    let mut scratch = Scratch::new(alloc);
    let mut reader = Reader::new(text, &mut scratch)?;
    let mut nesting = Nesting::new(alloc);
    // A token has at least one byte.
    for _ in 0..text.len() {
        let offset = reader.offset();
        let Some(token) = reader.next() else {
            break;
        };
        if let Some(stop) = nesting.take(token)? {
            let offset = offset_of(text.as_bytes(), stop, offset, reader.offset());
            let inside = nesting.innermost();
            return Ok(Some(Stopped {
                stop,
                offset,
                inside,
            }));
        }
    }
    Ok(end_of(text.as_bytes(), &nesting))
}

/// Returns where a text stops whose tokens were all taken, if its value is not complete.
fn end_of(bytes: &[u8], nesting: &Nesting) -> Option<Stopped> {
    if nesting.is_complete() {
        return None;
    }
    Some(Stopped {
        stop: Stop::End,
        offset: trimmed_len(bytes),
        inside: nesting.innermost(),
    })
}

/// Returns the offset of what is not expected: at a token, or at or before the one that is next.
fn offset_of(bytes: &[u8], stop: Stop, token: usize, next: usize) -> usize {
    match stop {
        Stop::Colon => last_colon(bytes, next),
        Stop::NoColon => next,
        _ => token,
    }
}

/// Returns the offset of the last colon before an offset.
fn last_colon(bytes: &[u8], end: usize) -> usize {
    let end = end.min(bytes.len());
    let before = &bytes[..end];
    match before.iter().rposition(|byte| *byte == b':') {
        Some(offset) => offset,
        None => end,
    }
}

/// Returns how many bytes there are up to the last one that is no white space.
pub(crate) fn trimmed_len(bytes: &[u8]) -> usize
    ensures { result ≤ length bytes.now }
{
    match bytes.iter().rposition(|byte| !is_space(*byte)) {
        Some(offset) => offset + 1,
        None => 0,
    }
}

/// Returns whether a byte is white space of JSON.
fn is_space(byte: u8) -> bool {
    matches!(byte, b' ' | b'\t' | b'\n' | b'\r')
}

//! The finding of a text that is no JSON.
ghost use Rattle.std.specs.Prelude.{◌≡◌, ◌<◌, length, None, IfOk};
ghost use Rattle.openapi_findings.specs.Findings.{finds};

use crate::code::Code;
use crate::expected::Expected;
use crate::finding::Finding;
use crate::stop::{Stop, Stopped, stop_of, trimmed_len};
use crate::text_point::{point_behind, text_of};
use openapi_json::Position;
use std::alloc::{AllocError, Global};

/// The bytes of a byte order mark in UTF-8.
const BYTE_ORDER_MARK: &[u8] = b"\xEF\xBB\xBF";

/// How many bytes are shown of a word.
const LONGEST: usize = 40;

/// Why a text is no JSON.
#[derive(Drop)]
struct SyntaxError {
    offset: usize,
    message: String,
    help: Option<&'static str>,
}

/// Returns the finding of a text that is no JSON.
///
/// # Errors
///
/// Returns [`AllocError`] if an allocation fails.
pub(crate) fn syntax_finding(alloc: Global, bytes: &[u8]) -> Result<Finding, AllocError>
    ensures { IfOk result (λ f. finds f ≡ (None, Code.NotJson)) }
{
    let SyntaxError {
        offset,
        message,
        help,
    } = syntax_error(alloc, bytes)?;
    let help = match help {
        Some(text) => Some(String::from_str(alloc, text)?),
        None => None,
    };
    let value = point_behind(&bytes[..offset.min(bytes.len())]);
    Ok(Finding {
        code: Code::NotJson,
        message,
        help,
        place: None,
        position: Some(Position { value, name: None }),
    })
}

/// Returns why a text is no JSON.
fn syntax_error(alloc: Global, bytes: &[u8]) -> Result<SyntaxError, AllocError> {
    let text = match simdutf8::compat::from_utf8(bytes) {
        Ok(text) => text,
        Err(error) => {
            let help = "save the file in UTF-8";
            return plain_error(alloc, error.valid_up_to(), "a byte is no UTF-8", Some(help));
        }
    };
    if bytes.starts_with(BYTE_ORDER_MARK) {
        let help = "save the file in UTF-8 without a byte order mark";
        return plain_error(
            alloc,
            0,
            "expected a value, found a byte order mark",
            Some(help),
        );
    }
    if trimmed_len(bytes) == 0 {
        let help = "a document is one JSON object";
        return plain_error(alloc, 0, "the file is empty", Some(help));
    }
    match stop_of(alloc, text)? {
        Some(stopped) => error_at(alloc, bytes, stopped),
        None => plain_error(alloc, 0, "not JSON", None),
    }
}

/// Returns an error with a fixed message.
fn plain_error(
    alloc: Global,
    offset: usize,
    message: &str,
    help: Option<&'static str>,
) -> Result<SyntaxError, AllocError> {
    let message = String::from_str(alloc, message)?;
    Ok(SyntaxError {
        offset,
        message,
        help,
    })
}

/// Returns the error of a text that stops being JSON somewhere.
fn error_at(alloc: Global, bytes: &[u8], stopped: Stopped) -> Result<SyntaxError, AllocError> {
    let Stopped {
        stop,
        offset,
        inside,
    } = stopped;
    let offset = offset.min(bytes.len());
    let expected = Expected::behind(&bytes[..offset], inside);
    let rest = &bytes[offset..];
    let may_be_text = expected.is_value() || expected.is_name();
    match stop {
        Stop::TooDeep => plain_error(
            alloc,
            offset,
            "arrays and objects are nested deeper than 127 levels",
            Some("look for a bracket that is not closed"),
        ),
        Stop::TooLarge => plain_error(alloc, offset, "the number is out of range", None),
        Stop::NoColon => unexpected(alloc, bytes, offset, "`:`", None),
        Stop::Bad if may_be_text && rest.starts_with(b"\"") => bad_text(alloc, bytes, offset),
        _ => {
            let help = help_at(bytes, offset, expected);
            unexpected(alloc, bytes, offset, expected.as_str(), help)
        }
    }
}

/// Returns the error that something else was expected at an offset.
fn unexpected(
    alloc: Global,
    bytes: &[u8],
    offset: usize,
    expected: &str,
    help: Option<&'static str>,
) -> Result<SyntaxError, AllocError> {
    let word = word_at(bytes, offset);
    let message = if word.is_empty() {
        format!(in alloc; "expected {expected}, found the end of the file")?
    } else {
        format!(in alloc; "expected {expected}, found `{word}`")?
    };
    Ok(SyntaxError {
        offset,
        message,
        help,
    })
}

/// Returns the word or the character at an offset, or nothing at the end of the bytes.
fn word_at(bytes: &[u8], offset: usize) -> &str {
    let start = offset.min(bytes.len());
    let end = trimmed_len(bytes).max(start).min(bytes.len());
    let rest = &bytes[start..end];
    let len = match rest
        .iter()
        .take(LONGEST)
        .position(|byte| !is_of_word(*byte))
    {
        Some(0) => 1,
        Some(len) => len,
        None => rest.len().min(LONGEST),
    };
    text_of(&rest[..len.min(rest.len())])
}

/// Returns whether a byte is part of a word or of a number.
fn is_of_word(byte: u8) -> bool {
    byte.is_ascii_alphanumeric() || matches!(byte, b'_' | b'-' | b'+' | b'.' | 0x80..=0xFF)
}

/// Returns the error in the text that begins at an offset.
fn bad_text(alloc: Global, bytes: &[u8], offset: usize) -> Result<SyntaxError, AllocError>
    requires { offset < length bytes.now }
{
    let mut is_escaped = false;
    for i in offset + 1..bytes.len() {
        match bytes[i] {
            b'\n' | b'\r' => {
                let help = "close it with `\"`, or write the line break as `\\n`";
                return plain_error(
                    alloc,
                    offset,
                    "a string is not closed on its line",
                    Some(help),
                );
            }
            0..=0x1F => {
                let help = "write it as an escape, such as `\\t` or `\\u001f`";
                return plain_error(alloc, i, "a control character in a string", Some(help));
            }
            _ if is_escaped && !is_escape(&bytes[i..]) => {
                let help = "write a backslash as `\\\\`";
                return plain_error(alloc, i - 1, "an unknown escape in a string", Some(help));
            }
            b'"' if !is_escaped => {
                return plain_error(alloc, offset, "half of a surrogate pair in a string", None);
            }
            byte => is_escaped = byte == b'\\' && !is_escaped,
        }
    }
    plain_error(alloc, offset, "a string is not closed", None)
}

/// Returns whether bytes begin with what may be behind a backslash.
fn is_escape(bytes: &[u8]) -> bool {
    match bytes {
        [b'"' | b'\\' | b'/' | b'b' | b'f' | b'n' | b'r' | b't', ..] => true,
        [b'u', a, b, c, d, ..] => {
            a.is_ascii_hexdigit()
                && b.is_ascii_hexdigit()
                && c.is_ascii_hexdigit()
                && d.is_ascii_hexdigit()
        },
        _ => false,
    }
}

/// Returns what to do where something else was expected.
fn help_at(bytes: &[u8], offset: usize, expected: Expected) -> Option<&'static str> {
    let offset = offset.min(bytes.len());
    let before = trimmed(&bytes[..offset]);
    match &bytes[offset..] {
        [b'}' | b']', ..] if before.ends_with(b",") => Some("remove the comma before it"),
        rest if before.is_empty() && is_like_yaml(rest) => {
            Some("this looks like YAML: convert it, as by `yq -o=json . api.yaml > api.json`")
        }
        [b'/' | b'#', ..] => Some("JSON has no comments: remove it"),
        [b'\'', ..] => Some("write strings in double quotes"),
        [byte, ..] if expected.is_name() && is_of_word(*byte) => Some(
            "write names in double quotes",
        ),
        _ => None,
    }
}

/// Returns bytes without the white space at their end.
fn trimmed(bytes: &[u8]) -> &[u8] {
    &bytes[..trimmed_len(bytes).min(bytes.len())]
}

/// Returns whether bytes begin like a document in YAML: with `---`, `%YAML`, a comment, an item of a list, or a word and a colon.
fn is_like_yaml(bytes: &[u8]) -> bool {
    if bytes.starts_with(b"---") || bytes.starts_with(b"%YAML") || bytes.starts_with(b"- ") {
        return true;
    }
    if bytes.starts_with(b"#") {
        return true;
    }
    match bytes.iter().position(|byte| !is_of_word(*byte)) {
        Some(len) => len > 0 && bytes[len] == b':',
        None => false,
    }
}

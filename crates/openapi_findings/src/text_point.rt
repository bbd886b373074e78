//! The line and the column of an offset.
ghost use Rattle.std.specs.Prelude.{◌≡◌};
ghost use Rattle.openapi_json.specs.Positions.{IsBehind};
ghost use Rattle.openapi_findings.specs.Excerpts.{valid_text};

use openapi_json::Point;

/// Returns the point behind the first bytes of a text, as an editor counts: a line ends with a line feed, and each character is one
/// column.
pub(crate) fn point_behind(bytes: &[u8]) -> Point
    ensures { IsBehind bytes.now result }
{
    let mut line = 1;
    let mut column = 1;
    for byte in bytes {
        match *byte {
            b'\n' => {
                line += 1;
                column = 1;
            }
            0x80..=0xBF => {}
            _ => column += 1,
        }
    }
    Point {
        offset: bytes.len(),
        line,
        column,
    }
}

/// Returns the longest beginning of some bytes that is text in UTF-8.
pub(crate) fn text_of(bytes: &[u8]) -> &str
    ensures { result.now ≡ valid_text bytes.now }
{
    match simdutf8::compat::from_utf8(bytes) {
        Ok(text) => text,
        Err(error) => {
            let end = error.valid_up_to().min(bytes.len());
            simdutf8::compat::from_utf8(&bytes[..end]).unwrap_or("")
        }
    }
}

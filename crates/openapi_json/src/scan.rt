//! Where the tokens of a JSON text begin.
ghost use Rattle.std.specs.Prelude.{◌≡◌, slice_get};
ghost use Rattle.json.specs.Lex.{class};
ghost use Rattle.openapi_json.specs.Scanned.{begins, mode_of, next_mode, starts};

/// What surrounds a byte of JSON text.
#[derive(Clone, Copy, Drop)]
pub(crate) enum Mode {
    /// No token, or the end of one.
    Between,
    /// A number or a word.
    Word,
    /// A text.
    Text,
    /// A text, behind a backslash.
    Escape,
}

/// Returns whether a token begins at a byte.
pub(crate) fn begins_token(mode: Mode, byte: u8) -> bool
    ensures { result ≡ begins (mode_of mode) (class byte) byte }
{
    let operator = matches!(byte, b'{' | b'}' | b'[' | b']');
    match mode {
        Mode::Between => operator || !matches!(byte, b' ' | b'\t' | b'\n' | b'\r' | b',' | b':'),
        Mode::Word => operator,
        Mode::Text | Mode::Escape => false,
    }
}

/// Returns the mode behind a byte.
pub(crate) fn mode_after(mode: Mode, byte: u8) -> Mode
    ensures { mode_of result ≡ next_mode (mode_of mode) (class byte) }
{
    match mode {
        Mode::Between | Mode::Word => match byte {
            b'{' | b'}' | b'[' | b']' | b',' | b':' => Mode::Between,
            b' ' | b'\t' | b'\n' | b'\r' => Mode::Between,
            b'"' => match mode {
                Mode::Between => Mode::Text,
                _ => Mode::Word,
            },
            _ => Mode::Word,
        },
        Mode::Text => match byte {
            b'"' => Mode::Between,
            b'\\' => Mode::Escape,
            _ => Mode::Text,
        },
        Mode::Escape => Mode::Text,
    }
}

/// Returns the offset at which a token of a text begins. The first token has the number 0.
pub(crate) fn offset_of(text: &[u8], number: usize) -> Option<usize>
    ensures { result ≡ slice_get (starts text.now) number }
{
    let mut mode = Mode::Between;
    let mut passed = 0;
    for i in 0..text.len() {
        let byte = text[i];
        if begins_token(mode, byte) {
            if passed == number {
                return Some(i);
            }
            passed += 1;
        }
        mode = mode_after(mode, byte);
    }
    None
}

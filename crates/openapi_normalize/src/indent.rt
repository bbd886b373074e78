//! Text that is indented by other than two spaces.
ghost use Rattle.std.specs.Prelude.{◌≡◌, ◌++◌, IfOk, OnOk, replicate, string_bytes};
ghost use Rattle.openapi_normalize.specs.Indent as meaning;

use std::alloc::{AllocError, Global};

/// Where a byte is in its line.
#[derive(Clone, Copy, Debug, Drop, PartialEq, Eq)]
pub(crate) enum Spot {
    /// Behind an even number of spaces, and nothing else.
    Even,
    /// Behind an odd number of spaces, and nothing else.
    Odd,
    /// Behind something else.
    Behind,
}

impl Spot {
    /// Returns where the next byte is.
    fn after(self, byte: u8) -> Spot
        ensures { result ≡ meaning.next_spot self byte }
    {
        match (byte, self) {
            (b'\n', _) => Spot::Even,
            (b' ', Spot::Even) => Spot::Odd,
            (b' ', Spot::Odd) => Spot::Even,
            _ => Spot::Behind,
        }
    }
}

/// Returns a text with another number of spaces in place of each two with which a line begins.
///
/// # Errors
///
/// `AllocError` if an allocation fails.
pub(crate) fn indented(alloc: Global, text: &str, indent: usize) -> Result<String, AllocError>
    ensures { IfOk result (λ s. string_bytes s ≡ meaning.indented indent text.now) }
{
    let mut out = Vec::with_capacity(alloc, text.len())?;
    let mut spot = Spot::Even;
    for byte in text.as_bytes() {
        push_indented(&mut out, indent, spot, *byte)?;
        spot = spot.after(*byte);
    }
    match String::from_utf8(out) {
        Ok(text) => Ok(text),
        Err(_) => Err(AllocError),
    }
}

/// Appends a byte, or for the second of two spaces at the beginning of a line those that replace both.
fn push_indented(out: &mut Vec<u8>, indent: usize, spot: Spot, byte: u8) -> Result<(), AllocError>
    ensures { OnOk result (out.new.items ≡ out.old.items ++ meaning.piece indent spot byte) }
{
    match (byte, spot) {
        (b' ', Spot::Even) => {}
        (b' ', Spot::Odd) => push_spaces(out, indent)?,
        _ => out.push(byte)?,
    }
    Ok(())
}

/// Appends some spaces.
fn push_spaces(out: &mut Vec<u8>, count: usize) -> Result<(), AllocError>
    ensures { OnOk result (out.new.items ≡ out.old.items ++ replicate count 32) }
{
    for _ in 0..count {
        out.push(b' ')?;
    }
    Ok(())
}

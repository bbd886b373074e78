//! Texts and locations as they are printed.
use crate::escape::Escape;
use openapi_node::PlaceStep;
use std::fmt;

/// A text for a terminal.
///
/// It prints a tab as four spaces. It prints U+FFFD instead of a character that would move the cursor or change the
/// direction of the text.
#[derive(Clone, Copy, Debug)]
pub struct Shown<'a>(pub &'a str);

/// A text as a string of JSON (RFC 8259, section 7), with its quotes.
#[derive(Clone, Copy, Debug)]
pub struct Quoted<'a>(pub &'a str);

/// A location as a JSON Pointer (RFC 6901) in a string of JSON, with its quotes.
#[derive(Clone, Copy, Debug)]
pub struct QuotedPointer<'a>(pub &'a [PlaceStep]);

impl fmt::Display for Shown<'_> {
    ghost use Rattle.std.specs.Prelude.{Some};
    ghost use Rattle.openapi_findings.specs.Escaped.{on_terminal, written};

    ghost output = { λ it. Some (written on_terminal it.0.now) };

    fn fmt<W: fmt::Write>(&self, f: &mut fmt::Formatter<W>) -> fmt::Result {
        Escape::Terminal.write(f, self.0)
    }
}

impl fmt::Display for Quoted<'_> {
    ghost use Rattle.std.specs.Prelude.{Some};
    ghost use Rattle.openapi_findings.specs.Escaped.{quoted};

    ghost output = { λ it. Some (quoted it.0.now) };

    #[tactic(auto, unfolding(crate::specs::Escaped::quoted))]
    fn fmt<W: fmt::Write>(&self, f: &mut fmt::Formatter<W>) -> fmt::Result {
        f.write_str("\"")?;
        Escape::Json.write(f, self.0)?;
        f.write_str("\"")
    }
}

impl fmt::Display for QuotedPointer<'_> {
    ghost use Rattle.std.specs.Prelude.{Some};
    ghost use Rattle.openapi_findings.specs.Escaped.{quoted_pointer};

    ghost output = { λ it. Some (quoted_pointer it.0.now) };

    #[tactic(auto, unfolding(crate::specs::Escaped::quoted_pointer))]
    fn fmt<W: fmt::Write>(&self, f: &mut fmt::Formatter<W>) -> fmt::Result {
        f.write_str("\"")?;
        Escape::Json.write_pointer(f, self.0)?;
        f.write_str("\"")
    }
}

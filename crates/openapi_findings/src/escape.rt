//! How the characters of a text are written in each format.
ghost use Rattle.std.specs.Fmt.{WritesOnOk};
ghost use Rattle.openapi_findings.specs.Escaped.{escaped, in_blank, in_json, in_message, in_property, in_token};
ghost use Rattle.openapi_findings.specs.Escaped.{on_terminal, pointer_text, step_text, written};

use openapi_node::PlaceStep;
use std::fmt;

/// How the characters of a text are written.
#[derive(Clone, Copy, Debug, PartialEq, Eq)]
pub(crate) enum Escape {
    /// For a terminal: a tab as four spaces, and a character that would move the cursor or turn the text around as U+FFFD.
    Terminal,
    /// As spaces, as many as the character has columns on a terminal.
    Blank,
    /// In a string of JSON (RFC 8259, section 7).
    Json,
    /// In the message of a workflow command of GitHub.
    Message,
    /// In a property of a workflow command of GitHub.
    Property,
}

impl Escape {
    /// Writes a text.
    pub(crate) fn write<W: fmt::Write>(self, f: &mut fmt::Formatter<W>, text: &str) -> fmt::Result
        ensures { WritesOnOk W.write_str_gives f.old result (written (escaped self) text.now) f.new }
    {
        for c in text.chars() {
            self.write_char(f, c)?;
        }
        Ok(())
    }

    /// Writes a location as a JSON Pointer (RFC 6901).
    pub(crate) fn write_pointer<W: fmt::Write>(
        self,
        f: &mut fmt::Formatter<W>,
        place: &[PlaceStep],
    ) -> fmt::Result
        ensures { WritesOnOk W.write_str_gives f.old result (pointer_text (escaped self) place.now) f.new }
    {
        for step in place {
            self.write_step(f, step)?;
        }
        Ok(())
    }

    /// Writes a step of a location as a reference token of a JSON Pointer, with a `/` before it.
    fn write_step<W: fmt::Write>(self, f: &mut fmt::Formatter<W>, step: &PlaceStep) -> fmt::Result
        ensures { WritesOnOk W.write_str_gives f.old result (step_text (escaped self) step.now) f.new }
    {
        match step {
            PlaceStep::Index(index) => write!(f, "/{index}"),
            PlaceStep::Name(name) => {
                f.write_str("/")?;
                self.write_token(f, name.as_str())
            }
        }
    }

    /// Writes a name as a reference token.
    fn write_token<W: fmt::Write>(self, f: &mut fmt::Formatter<W>, name: &str) -> fmt::Result
        ensures { WritesOnOk W.write_str_gives f.old result (written (in_token (escaped self)) name.now) f.new }
    {
        for c in name.chars() {
            self.write_in_token(f, c)?;
        }
        Ok(())
    }

    /// Writes a character of a reference token.
    fn write_in_token<W: fmt::Write>(self, f: &mut fmt::Formatter<W>, c: char) -> fmt::Result
        ensures { WritesOnOk W.write_str_gives f.old result (in_token (escaped self) c) f.new }
    {
        match c {
            '~' => f.write_str("~0"),
            '/' => f.write_str("~1"),
            _ => self.write_char(f, c),
        }
    }

    /// Writes a character.
    fn write_char<W: fmt::Write>(self, f: &mut fmt::Formatter<W>, c: char) -> fmt::Result
        ensures { WritesOnOk W.write_str_gives f.old result (escaped self c) f.new }
    {
        match self {
            Escape::Terminal => write_for_terminal(f, c),
            Escape::Blank => write_blank(f, c),
            Escape::Json => write_in_json(f, c),
            Escape::Message => write_in_message(f, c),
            Escape::Property => write_in_property(f, c),
        }
    }
}

#[tactic(auto, unfolding(crate::specs::Escaped::on_terminal))]
fn write_for_terminal<W: fmt::Write>(f: &mut fmt::Formatter<W>, c: char) -> fmt::Result
    ensures { WritesOnOk W.write_str_gives f.old result (on_terminal c) f.new }
{
    match c {
        '\t' => f.write_str("    "),
        '\u{202A}'..='\u{202E}' | '\u{2066}'..='\u{2069}' => f.write_char('\u{FFFD}'),
        _ if c.is_control() => f.write_char('\u{FFFD}'),
        _ => f.write_char(c),
    }
}

#[tactic(auto, unfolding(crate::specs::Escaped::in_blank))]
fn write_blank<W: fmt::Write>(f: &mut fmt::Formatter<W>, c: char) -> fmt::Result
    ensures { WritesOnOk W.write_str_gives f.old result (in_blank c) f.new }
{
    match c {
        '\t' => f.write_str("    "),
        _ => f.write_str(" "),
    }
}

#[tactic(auto, unfolding(crate::specs::Escaped::in_json))]
fn write_in_json<W: fmt::Write>(f: &mut fmt::Formatter<W>, c: char) -> fmt::Result
    ensures { WritesOnOk W.write_str_gives f.old result (in_json c) f.new }
{
    match c {
        '"' => f.write_str("\\\""),
        '\\' => f.write_str("\\\\"),
        '\n' => f.write_str("\\n"),
        '\r' => f.write_str("\\r"),
        '\t' => f.write_str("\\t"),
        _ if c < ' ' => {
            let code = c as u32;
            write!(f, "\\u{code:04x}")
        }
        _ => f.write_char(c),
    }
}

#[tactic(auto, unfolding(crate::specs::Escaped::in_message))]
fn write_in_message<W: fmt::Write>(f: &mut fmt::Formatter<W>, c: char) -> fmt::Result
    ensures { WritesOnOk W.write_str_gives f.old result (in_message c) f.new }
{
    match c {
        '%' => f.write_str("%25"),
        '\r' => f.write_str("%0D"),
        '\n' => f.write_str("%0A"),
        _ => f.write_char(c),
    }
}

#[tactic(auto, unfolding(crate::specs::Escaped::in_property))]
fn write_in_property<W: fmt::Write>(f: &mut fmt::Formatter<W>, c: char) -> fmt::Result
    ensures { WritesOnOk W.write_str_gives f.old result (in_property c) f.new }
{
    match c {
        ':' => f.write_str("%3A"),
        ',' => f.write_str("%2C"),
        _ => write_in_message(f, c),
    }
}

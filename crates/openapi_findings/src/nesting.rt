//! How far the tokens of a text follow the grammar of JSON.
use crate::stop::Stop;
use json::Token;
use std::alloc::{AllocError, Global};

/// How deep arrays and objects may be nested.
pub(crate) const MAX_DEPTH: usize = 127;

/// An array or an object that is not closed yet.
#[derive(Clone, Copy, Debug, PartialEq, Eq)]
pub(crate) enum Open {
    Array,
    Object,
}

/// What is open after some tokens of a text.
#[derive(Drop)]
pub(crate) struct Nesting {
    unclosed: Vec<Open>,
    /// The last token is the name of a member.
    is_after_name: bool,
    /// The value of the whole text is complete.
    is_complete: bool,
}

impl Nesting {
    /// Returns what is open before the first token.
    pub(crate) fn new(alloc: Global) -> Nesting {
        Nesting {
            unclosed: Vec::new(alloc),
            is_after_name: false,
            is_complete: false,
        }
    }

    /// Returns the innermost array or object that is not closed.
    pub(crate) fn innermost(&self) -> Option<Open> {
        self.unclosed.as_slice().last().copied()
    }

    /// Returns whether the value of the text is complete.
    pub(crate) fn is_complete(&self) -> bool {
        self.is_complete
    }

    /// Takes one more token, or returns why the grammar stops at it.
    pub(crate) fn take(&mut self, token: Token<'_>) -> Result<Option<Stop>, AllocError> {
        match token {
            Token::BeginObject => self.begin(Open::Object),
            Token::BeginArray => self.begin(Open::Array),
            Token::EndObject => Ok(self.end(Open::Object)),
            Token::EndArray => Ok(self.end(Open::Array)),
            Token::Key(_) => Ok(self.name()),
            Token::String(_) => Ok(self.text()),
            Token::Number(text) => Ok(self.number(text)),
            Token::Bool(_) | Token::Null => Ok(self.scalar()),
            Token::Bad => Ok(Some(Stop::Bad)),
        }
    }

    /// Returns whether a value may be next.
    fn takes_value(&self) -> bool {
        match self.innermost() {
            Some(Open::Array) => true,
            Some(Open::Object) => self.is_after_name,
            None => !self.is_complete,
        }
    }

    /// Returns whether a name may be next.
    fn takes_name(&self) -> bool {
        self.innermost() == Some(Open::Object) && !self.is_after_name
    }

    /// Notes that a value ended.
    fn end_value(&mut self) {
        self.is_after_name = false;
        self.is_complete = self.unclosed.is_empty();
    }

    fn begin(&mut self, which: Open) -> Result<Option<Stop>, AllocError> {
        if !self.takes_value() {
            return Ok(Some(Stop::Token));
        }
        if self.unclosed.len() >= MAX_DEPTH {
            return Ok(Some(Stop::TooDeep));
        }
        self.unclosed.push(which)?;
        self.is_after_name = false;
        Ok(None)
    }

    fn end(&mut self, which: Open) -> Option<Stop> {
        if self.is_after_name || self.innermost() != Some(which) {
            return Some(Stop::Token);
        }
        self.unclosed.pop();
        self.end_value();
        None
    }

    fn name(&mut self) -> Option<Stop> {
        if self.takes_name() {
            self.is_after_name = true;
            return None;
        }
        Some(if self.takes_value() {
            Stop::Colon
        } else {
            Stop::Token
        })
    }

    fn text(&mut self) -> Option<Stop> {
        if self.takes_name() {
            return Some(Stop::NoColon);
        }
        self.scalar()
    }

    fn number(&mut self, text: &str) -> Option<Stop> {
        if self.takes_value() && !is_finite(text) {
            return Some(Stop::TooLarge);
        }
        self.scalar()
    }

    fn scalar(&mut self) -> Option<Stop> {
        if !self.takes_value() {
            return Some(Stop::Token);
        }
        self.end_value();
        None
    }
}

/// Returns whether a number is within the range of 64-bit floating point numbers.
fn is_finite(text: &str) -> bool {
    match fast_float::parse::<f64, &str>(text) {
        Ok(number) => number.is_finite(),
        Err(_) => false,
    }
}

//! Texts that may be a known word: formats, of which a document may have any.
ghost use Rattle.std.specs.Prelude.{◌≡◌, IfOk, option_map, string_bytes};
ghost use Rattle.openapi_values.specs.VariantOr.{IsVariantOf, IsVariantOrEmptyOf, or_empty, is_empty};
ghost use Rattle.openapi_values.specs.VariantOr.{variant_text, variant_or_empty_text};
ghost use Rattle.openapi_values.specs.VariantOr.{format_form, variant_form, variant_or_empty_form};

use crate::Word;
use std::alloc::{AllocError, Global};
use std::str::FromStr;

/// A known word, or any other text.
#[derive(Clone, Debug, PartialEq, Drop)]
pub enum VariantOrUnknown<T> {
    /// The text is a known word: this one.
    Item(T),
    /// The text is no known word.
    Unknown(String),
}

impl<T: Word> VariantOrUnknown<T> {
    /// Returns the item of a known word, or a copy of any other text.
    ///
    /// # Errors
    ///
    /// Returns [`AllocError`] if the allocation of the copy fails.
    pub fn from_text(alloc: Global, text: &str) -> Result<VariantOrUnknown<T>, AllocError>
        ensures { IfOk result (λ value. variant_form T.word_of value ≡ format_form T.words text.now) }
    {
        match T::from_word(text) {
            Some(item) => Ok(VariantOrUnknown::Item(item)),
            None => Ok(VariantOrUnknown::Unknown(String::from_str(alloc, text)?)),
        }
    }

    /// Returns the text: the word of an item, or the text that is no known word.
    pub fn as_str(&self) -> &str
        ensures { result.now ≡ variant_text T.word_of self.now }
    {
        match self {
            VariantOrUnknown::Item(item) => item.as_str(),
            VariantOrUnknown::Unknown(text) => text.as_str(),
        }
    }
}

/// Reads the text as an item, and keeps the text if that fails.
impl<T: FromStr> From<String> for VariantOrUnknown<T>
where
    T::Err: Drop,
{
    ghost from_gives = { λ text value. IsVariantOf T.from_str_gives (string_bytes text) value };

    fn from(text: String) -> VariantOrUnknown<T> {
        match T::from_str(text.as_str()) {
            Ok(item) => VariantOrUnknown::Item(item),
            Err(_) => VariantOrUnknown::Unknown(text),
        }
    }
}

/// A known word, any other text, or none.
#[derive(Clone, Debug, PartialEq, Drop)]
pub enum VariantOrUnknownOrEmpty<T> {
    /// The text is a known word: this one.
    Item(T),
    /// The text is no known word.
    Unknown(String),
    /// There is no text: it is null, or missing.
    Empty,
}

impl<T> VariantOrUnknownOrEmpty<T> {
    /// Returns whether there is no text.
    pub fn is_empty(&self) -> bool
        ensures { result ≡ is_empty self.now }
    {
        match self {
            VariantOrUnknownOrEmpty::Empty => true,
            _ => false,
        }
    }
}

impl<T: Word> VariantOrUnknownOrEmpty<T> {
    /// Returns the item of a known word, or a copy of any other text.
    ///
    /// # Errors
    ///
    /// Returns [`AllocError`] if the allocation of the copy fails.
    pub fn from_text(alloc: Global, text: &str) -> Result<VariantOrUnknownOrEmpty<T>, AllocError>
        ensures { IfOk result (λ value. variant_or_empty_form T.word_of value ≡ format_form T.words text.now) }
    {
        Ok(VariantOrUnknown::from_text(alloc, text)?.into())
    }

    /// Returns the text, if there is one: the word of an item, or the text that is no known word.
    pub fn as_str(&self) -> Option<&str>
        ensures { option_map (λ text. text.now) result ≡ variant_or_empty_text T.word_of self.now }
    {
        match self {
            VariantOrUnknownOrEmpty::Item(item) => Some(item.as_str()),
            VariantOrUnknownOrEmpty::Unknown(text) => Some(text.as_str()),
            VariantOrUnknownOrEmpty::Empty => None,
        }
    }
}

/// Returns [`VariantOrUnknownOrEmpty::Empty`].
impl<T> Default for VariantOrUnknownOrEmpty<T> {
    ghost use Rattle.openapi_values.specs.declared.variant_or.VariantOrUnknownOrEmpty.TheVariants.{Empty};

    ghost is_default = { λ value. value ≡ Empty };

    fn default() -> VariantOrUnknownOrEmpty<T> {
        VariantOrUnknownOrEmpty::Empty
    }
}

/// Converts to the same item or text.
impl<T> From<VariantOrUnknown<T>> for VariantOrUnknownOrEmpty<T> {
    ghost from_gives = { λ value result. result ≡ or_empty value };

    fn from(value: VariantOrUnknown<T>) -> VariantOrUnknownOrEmpty<T> {
        match value {
            VariantOrUnknown::Item(item) => VariantOrUnknownOrEmpty::Item(item),
            VariantOrUnknown::Unknown(text) => VariantOrUnknownOrEmpty::Unknown(text),
        }
    }
}

/// Reads a text as an item, and keeps the text if that fails. Without a text, the result is empty.
impl<T: FromStr> From<Option<String>> for VariantOrUnknownOrEmpty<T>
where
    T::Err: Drop,
{
    ghost from_gives = { λ text value. IsVariantOrEmptyOf T.from_str_gives text value };

    fn from(text: Option<String>) -> VariantOrUnknownOrEmpty<T> {
        match text {
            Some(text) => VariantOrUnknown::from(text).into(),
            None => VariantOrUnknownOrEmpty::Empty,
        }
    }
}

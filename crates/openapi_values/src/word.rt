//! Sets of words.
ghost use Rattle.std.specs.Prelude.{◌≡◌, ℕ, List, true, map, IfSome, is_some};
ghost use Rattle.openapi_tables.specs.Lists.{has};

/// A value that is one word of a fixed set in a document.
pub trait Word: Copy + 'static {
    // The words of the set.
    ghost words: { List (List ℕ) };

    // The word of each value.
    ghost word_of: { Self → List ℕ };

    /// Returns the values of the set, in the order of its words.
    fn all() -> &'static [Self]
        ensures { map word_of result.now ≡ words };

    /// Returns the word of the value.
    fn as_str(&self) -> &'static str
        ensures { result.now ≡ word_of self.now };

    /// Returns the value whose word is the text, or `None` if the set has no such word.
    fn from_word(text: &str) -> Option<Self>
        ensures found { is_some result ≡ has words text.now }
        ensures value { IfSome result (λ value. word_of value ≡ text.now) }
    {
        for value in Self::all() {
            if value.as_str() == text {
                return Some(*value);
            }
        }
        None
    }

    // The word of each value is in the set.
    ghost known: { (value : Self) → has words (word_of value) ≡ true };
}

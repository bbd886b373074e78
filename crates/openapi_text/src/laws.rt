//! Laws of the texts that are written: each function does nothing, and its contract is the law.
ghost use Rattle.openapi_text.specs.Laws.{NestsNoDeeper, SettledTextReads, SettledTextStays};

/// States that cleaning or settling a value nests its arrays and objects no deeper than they were.
pub fn nests_no_deeper()
    ensures { NestsNoDeeper }
{}

/// States that settled text is a fixed point, by name, in the order of the text and pretty-printed. What
/// [`Rewriting::Settle`] writes is the text of a document again, for which it writes the same text and no other. The
/// text is in UTF-8, as each `String` is.
///
/// [`Rewriting::Settle`]: crate::Rewriting::Settle
pub fn settled_text_stays()
    ensures { SettledTextStays }
{}

/// States that settled text by name is read by name as the settled value, with the members of each object in the order of
/// their names.
pub fn settled_text_reads()
    ensures { SettledTextReads }
{}

//! Laws of reading and writing by tables: each function does nothing, and its contract is the law.
//!
//! A *kind* defines what a value may be. A *table* has a row for each member of an object. A node *conforms* to a kind,
//! and a *form* is read from it; a form is *printed* as a node. A node is *cleaned* by reading and printing it. The
//! laws about a list of tables hold for every list that is well made, and for every kind that is well made over it.
ghost use Rattle.openapi_tables.specs.Laws.{WellMade, Codes, FirstValue, References, Ignored, Order, Faults};
ghost use Rattle.openapi_tables.specs.Laws.{ReadsItsWriting, Settles, Canonical, CallbacksKept, XmlKept};
ghost use Rattle.openapi_tables.specs.Laws.{DistinctNames, OrderKept, Writable};

/// States that the final tables and the two earlier lists of tables are well made.
///
/// In each table no name is taken by two rows, the mode of each row fits its kind, and a default style is one of its
/// styles. A value that is no reference is not written as one, where a reference is allowed. No table has two rows that
/// are written if nothing was read for them.
pub fn well_made()
    ensures { WellMade }
{}

/// States that a status code is read again from its text, and that no two codes have the same text: for the codes 100
/// to 999 and the ranges `0XX` to `9XX`.
pub fn codes()
    ensures { Codes }
{}

/// States that an object with a text at `$ref` is a reference with that text and conforms, whatever else it holds, if a
/// reference is allowed.
pub fn references()
    ensures { References }
{}

/// States that a member without effect may be added or removed: the object conforms if it did, and the same is read
/// from it.
///
/// Such a member is taken by no row, and has no influence on the rows by which an object is read. The tag of an object
/// has such an influence, and in a schema each of the names by which the sorts of schemas are distinguished. The law
/// also covers objects that a reference may replace: there `$ref` has an influence, too.
pub fn ignored()
    ensures { Ignored }
{}

/// States that two neighbors with different names may be swapped if no row takes both: the object conforms if it did,
/// and the same is read from it.
///
/// The law also covers objects that a reference may replace. So the order of members counts only among extensions,
/// among paths, among status codes, and between two names of which the first decides.
pub fn order()
    ensures { Order }
{}

/// States that cleaning keeps order, step by step from a document to any value in it.
///
/// A map and a list are cleaned value by value, in their order. An object that is no reference is cleaned as its kind
/// without references. In an object the extensions, the paths and the names of a callback keep their names and their
/// order, and each value is cleaned. A member of a name is cleaned at that name if its row writes it, and so is the one
/// of two names that decides. Status codes are left out: the later value of a repeated code takes the place of the
/// earlier one.
pub fn order_kept()
    ensures { OrderKept }
{}

/// States that a node conforms if and only if no requirement is broken, at any location in it.
pub fn faults()
    ensures { Faults }
{}

/// States that reading and printing fit together.
///
/// A value that can be written is printed as a node that conforms, and the value read from that node can be written.
/// Every value that is read from a node that conforms can be written. A node that conforms is cleaned to one of at most
/// twice as many values.
pub fn reads_its_writing()
    ensures { ReadsItsWriting }
{}

/// States that a value that is printed and read once is in stable form: printing and reading it again changes nothing.
pub fn settles()
    ensures { Settles }
{}

/// States when the value read from a node is also read from its print. It is if and only if no schema held as
/// `AnySchema` is printed as one of a type or of `oneOf`, `allOf`, `anyOf` or `not`.
pub fn first_value()
    ensures { FirstValue }
{}

/// States that cleaning a node that conforms a third time changes nothing.
///
/// Two nodes that conform are the same after cleaning twice if and only if the same value is read from both after
/// cleaning once.
pub fn canonical()
    ensures { Canonical }
{}

/// States which forms can be printed, so that they are read as one of their kind again.
///
/// Such a form is one of a value of its kind, and no name or code in it is one that a reader would drop. Extensions
/// begin with `x-`, paths with `/`, and names of a callback do not begin with `x-`. Codes are 100 to 999 or a range of
/// one digit.
pub fn writable()
    ensures { Writable }
{}

/// States that names stay distinct.
///
/// If no object of a node holds a name twice, no map of the form that is read holds a name or a code twice. Such a form
/// that can be written is printed as such a node.
pub fn distinct_names()
    ensures { DistinctNames }
{}

/// States that a node conforms where a callback may be a reference and may have extensions, if it conforms where a
/// callback is a plain map of path items.
pub fn callbacks_kept()
    ensures { CallbacksKept }
{}

/// States that a node conforms if and only if it conforms when schemas have no `xml`, and each `xml` of a schema in it
/// conforms to the XML Object.
pub fn xml_kept()
    ensures { XmlKept }
{}

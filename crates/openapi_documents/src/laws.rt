//! The law of whole documents: the function has no effect, and its contract is the law.
ghost use Rattle.openapi_documents.specs.Headline.{Headline};

/// States what holds for every JSON value that is read as a document, from the laws of the field tables.
///
/// - A value does not conform if and only if a rule that applies to a value in it is broken there. Unless an allocation
///   fails, `OpenAPI::from_node` reads exactly the values that conform. Its faults name such a rule and its location.
/// - A document that was read can be written, and is written as the normalized value.
/// - The normalized value conforms, and has at most twice as many values.
/// - A document that is read from the normalized value is stable: writing and reading it again changes nothing.
/// - It is equal to the first document if and only if no [`AnySchema`](openapi_schema::AnySchema) of that one is
///   written as a schema of another kind.
pub fn headline()
    ensures { Headline }
{}

//! The JSON values on which calls are made for `tests/memory.sh`.

use std::str::FromStr;

/// A JSON value, which is read as one type.
#[derive(Clone, Copy)]
pub enum Sample {
    /// A Schema Object that is held as Any, and is an integer once it is written.
    Schema,
    /// A Responses Object with two names of one code, and a name that is no code.
    Responses,
    /// A Responses Object that is refused.
    Refused,
    /// A whole document.
    Document,
    /// An Operation Object.
    Operation,
    /// A Tag Object with extensions.
    Tag,
}

impl FromStr for Sample {
    type Err = &'static str;

    /// Returns the sample of a word.
    fn from_str(word: &str) -> Result<Sample, &'static str> {
        match word {
            "schema" => Ok(Sample::Schema),
            "responses" => Ok(Sample::Responses),
            "refused" => Ok(Sample::Refused),
            "document" => Ok(Sample::Document),
            "operation" => Ok(Sample::Operation),
            "tag" => Ok(Sample::Tag),
            _ => Err("no such sample"),
        }
    }
}

const DOCUMENT: &str =
    r##"{"openapi":"3.0.0","info":{"title":"Swagger Petstore","license":{"name":"MIT"},"version":"1.0.0","x-hash":"abc123"},"servers":[{"url":"http://petstore.swagger.io/v1"}],"paths":{},"components":{"schemas":{"Cat":{"description":"A representation of a cat","allOf":[{"$ref":"#/components/schemas/Pet"},{"type":"object","properties":{"huntingSkill":{"description":"The measured skill for hunting","type":"string","enum":["clueless","lazy","adventurous","aggressive"]}},"required":["huntingSkill"]}]},"Dog":{"description":"A representation of a dog","allOf":[{"$ref":"#/components/schemas/Pet"},{"type":"object","properties":{"packSize":{"description":"the size of the pack the dog is from","type":"integer","format":"int32","minimum":0}},"required":["packSize"]}]},"Pet":{"discriminator":{"propertyName":"petType"},"type":"object","properties":{"name":{"type":"string"},"petType":{"type":"string"}},"required":["name","petType"]}}}}"##;

const OPERATION: &str =
    r#"{"responses":{"default":{"$ref":"def"},"666":{"$ref":"demo"},"418":{"$ref":"demo"}}}"#;

const TAG: &str =
    r#"{"name":"t","externalDocs":{"url":"u"},"x-b":{"z":[1,null],"a":"q"},"x-a":"a text that takes a block of its own"}"#;

impl Sample {
    /// Returns the value as JSON text.
    pub fn text(self) -> &'static str {
        match self {
            Sample::Schema => r#"{"type":"integer","exclusiveMinimum":false,"required":[]}"#,
            Sample::Responses => {
                r#"{"2xx":{"description":"a"},"404":{"description":"b"},"2XX":{"description":"c"},"wat":7}"#
            }
            Sample::Refused => {
                r#"{"200":{"content":{"application/json":{"schema":{"type":"string"}}}}}"#
            }
            Sample::Document => DOCUMENT,
            Sample::Operation => OPERATION,
            Sample::Tag => TAG,
        }
    }

    /// Returns what is written of what is read from the value, as JSON text.
    ///
    /// # Errors
    ///
    /// Returns the text of the fault of reading the value.
    pub fn cleaned(self) -> Result<&'static str, &'static str> {
        match self {
            Sample::Schema => Ok(r#"{"type":"integer","exclusiveMinimum":false}"#),
            Sample::Responses => { Ok(r#"{"2XX":{"description":"c"},"404":{"description":"b"}}"#) }
            Sample::Refused => Err("missing field `description` at #/200"),
            Sample::Document => Ok(DOCUMENT),
            Sample::Operation => Ok(OPERATION),
            Sample::Tag => Ok(TAG),
        }
    }

    /// Returns what [`cleaned`](Sample::cleaned) does, if the value is read with members in the order of their names.
    /// Of two spellings of a code the later one counts, and by name it is the one in small letters.
    ///
    /// # Errors
    ///
    /// Returns the text of the fault of reading the value.
    pub fn cleaned_by_name(self) -> Result<&'static str, &'static str> {
        match self {
            Sample::Responses => { Ok(r#"{"2XX":{"description":"a"},"404":{"description":"b"}}"#) }
            Sample::Schema | Sample::Refused | Sample::Document | Sample::Operation | Sample::Tag =>
                self.cleaned(),
        }
    }

    /// Returns the names of the members that lead to a value below the root, and the text of the last of these members.
    /// The value has that text once.
    pub fn inner(self) -> (&'static [&'static str], &'static str) {
        match self {
            Sample::Schema => (&["required"], r#""required":[]"#),
            Sample::Responses => (&["404", "description"], r#""description":"b""#),
            Sample::Refused => (
                &["200", "content", "application/json", "schema", "type"],
                r#""type":"string""#,
            ),
            Sample::Document => (
                &["components", "schemas", "Dog", "description"],
                r#""description":"A representation of a dog""#,
            ),
            Sample::Operation => (&["responses", "418"], r#""418":{"$ref":"demo"}"#),
            Sample::Tag => (&["x-b", "a"], r#""a":"q""#),
        }
    }

    /// Returns what the value settles to, in the same way.
    ///
    /// # Errors
    ///
    /// Returns the text of the fault of reading the value.
    pub fn settled(self) -> Result<&'static str, &'static str> {
        match self {
            Sample::Schema => Ok(r#"{"type":"integer"}"#),
            Sample::Responses
            | Sample::Refused
            | Sample::Document
            | Sample::Operation
            | Sample::Tag => self.cleaned(),
        }
    }
}

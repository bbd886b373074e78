//! The names of the types of schemas.
ghost use Rattle.std.proofs.Common.{refl};
ghost use Rattle.openapi_schema_types.specs.TypeNames.{type_words, type_name_word};

use openapi_values::Word;

/// The name of a type of schemas, which is the value of `type`.
#[derive(Clone, Copy, Debug, PartialEq)]
pub enum TypeName {
    /// `string`
    String,
    /// `number`
    Number,
    /// `integer`
    Integer,
    /// `object`
    Object,
    /// `array`
    Array,
    /// `boolean`
    Boolean,
}

impl Word for TypeName {
    ghost use Rattle.openapi_schema_types.specs.declared.type_name.TypeName.TheVariants as names;

    ghost words = { type_words };

    ghost word_of = { type_name_word };

    ghost known = { elim [
      | names.String ↦ refl
      | names.Number ↦ refl
      | names.Integer ↦ refl
      | names.Object ↦ refl
      | names.Array ↦ refl
      | names.Boolean ↦ refl
    ] };

    fn all() -> &'static [TypeName] {
        &[
            TypeName::String,
            TypeName::Number,
            TypeName::Integer,
            TypeName::Object,
            TypeName::Array,
            TypeName::Boolean,
        ]
    }

    fn as_str(&self) -> &'static str {
        match self {
            TypeName::String => "string",
            TypeName::Number => "number",
            TypeName::Integer => "integer",
            TypeName::Object => "object",
            TypeName::Array => "array",
            TypeName::Boolean => "boolean",
        }
    }
}

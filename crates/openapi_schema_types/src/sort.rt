//! The sorts of schemas.
ghost use Rattle.std.specs.Prelude.{◌≡◌, List, codes};
ghost use Rattle.std.specs.Option.{option_copied};
ghost use Rattle.openapi_node.specs.Tree.{Tree};
ghost use Rattle.openapi_tables.specs.Tree.{Entry};
ghost use Rattle.openapi_tables.specs.Members.{named_sort, possible_sort, held};
ghost use Rattle.openapi_schema_types.specs.Masks.{mask_of, presence, allowance, sort_in};
ghost use Rattle.openapi_schema_types.specs.Masks.{sort_by_names, first_of_four, IsType};
ghost use Rattle.openapi_schema_types.specs.TypeNames.{type_name_word};

use crate::mask::Mask;
use crate::type_name::TypeName;
use openapi_values::Word;

/// What a schema is read as, by the names that are present.
#[derive(Clone, Copy, Debug, PartialEq)]
pub enum Sort {
    /// A schema of texts.
    String,
    /// A schema of numbers.
    Number,
    /// A schema of whole numbers.
    Integer,
    /// A schema of flags.
    Boolean,
    /// A schema of objects.
    Object,
    /// A schema of arrays.
    Array,
    /// Exactly one of some schemas.
    OneOf,
    /// All of some schemas.
    AllOf,
    /// One of some schemas at least.
    AnyOf,
    /// No value of a schema.
    Not,
    /// No sort in particular.
    Any,
}

impl Sort {
    /// Returns the sort of schemas of a type.
    fn of_name(name: TypeName) -> Sort
        ensures { sort_in result ≡ named_sort (type_name_word name) }
    {
        match name {
            TypeName::String => Sort::String,
            TypeName::Number => Sort::Number,
            TypeName::Integer => Sort::Integer,
            TypeName::Object => Sort::Object,
            TypeName::Array => Sort::Array,
            TypeName::Boolean => Sort::Boolean,
        }
    }

    /// Returns the sort that a `type` names, or `Any` if it names none.
    fn of_type(typ: &str) -> Sort
        ensures { sort_in result ≡ named_sort typ.now }
    {
        match TypeName::from_word(typ) {
            Some(name) => Sort::of_name(name),
            None => Sort::Any,
        }
    }

    /// Returns the sort of the first of `oneOf`, `allOf`, `anyOf` and `not` that is present, or `Any` if none of them
    /// is.
    fn of_names(names: Mask) -> Sort
        ensures { (es : List (Entry Tree)) → names.bits ≡ mask_of (presence es) → sort_in result ≡ first_of_four es }
    {
        if Mask::ONE_OF.is_within(names) {
            Sort::OneOf
        } else if Mask::ALL_OF.is_within(names) {
            Sort::AllOf
        } else if Mask::ANY_OF.is_within(names) {
            Sort::AnyOf
        } else if Mask::NOT.is_within(names) {
            Sort::Not
        } else {
            Sort::Any
        }
    }

    /// Returns the names that a schema of the sort may have.
    #[tactic(auto, unfolding(crate::specs::Masks::allowance, openapi_tables::specs::Members::allowed, openapi_tables::specs::Members::sort_rows, openapi_tables::specs::Members::kind_names, openapi_tables::specs::Tables::any_rows, openapi_tables::specs::Tables::string_rows, openapi_tables::specs::Tables::object_rows, openapi_tables::specs::Tables::array_rows, openapi_tables::specs::Tables::boolean_rows))]
    fn names(self) -> Mask
        ensures { result.bits ≡ mask_of (allowance (sort_in self)) }
    {
        match self {
            Sort::String => Mask::STRING,
            Sort::Number | Sort::Integer => Mask::NUMBER,
            Sort::Boolean => Mask::BOOLEAN,
            Sort::Object => Mask::OBJECT,
            Sort::Array => Mask::ARRAY,
            Sort::OneOf => Mask::ONE_OF,
            Sort::AllOf => Mask::ALL_OF,
            Sort::AnyOf => Mask::ANY_OF,
            Sort::Not => Mask::NOT,
            Sort::Any => Mask::ANY,
        }
    }

    /// Returns the one sort that is possible: that of the `type`, or without a `type` that of the first of the four
    /// names.
    fn possible(typ: Option<&str>, names: Mask) -> Sort
        ensures { (es : List (Entry Tree)) → names.bits ≡ mask_of (presence es) → IsType (option_copied typ.entry) es
            → sort_in result ≡ possible_sort (held (codes "type") es) es }
    {
        match typ {
            Some(typ) => Sort::of_type(typ),
            None => Sort::of_names(names),
        }
    }

    /// Returns the sort by the `type`, if there is one, and by the names that are present. It is the possible sort if a
    /// schema of it may have all these names, and else `Any`.
    pub fn by_names(typ: Option<&str>, names: Mask) -> Sort
        ensures { (es : List (Entry Tree)) → names.bits ≡ mask_of (presence es) → IsType (option_copied typ.entry) es
            → sort_in result ≡ sort_by_names es }
    {
        let sort = Sort::possible(typ, names);
        if names.is_within(sort.names()) {
            sort
        } else {
            Sort::Any
        }
    }
}

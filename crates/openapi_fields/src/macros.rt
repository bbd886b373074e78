//! The rows of an object, one to a line: the field, the call that reads or writes its row, and the name of the row. Also
//! values made of results, one for each field.

/// Reads a value whose fields are those of a table, each by the call that its line names:
/// [`required`](crate::required), [`optional`](crate::optional), [`nullable`](crate::nullable) or
/// [`or_implied`](crate::or_implied). The field of the extensions comes behind `..`.
#[macro_export]
macro_rules! read_rows {
    ($alloc:ident, $members:ident, $steps:ident, $table:ty => $($value:ident)::+ {
        $($field:ident: $read:ident($name:literal),)*
        $(..$extensions:ident)?
    }) => {{
        $(let $field = match $crate::$read::<$table, _>($alloc, $members, $name, $steps) {
            Ok($field) => $field,
            Err(fault) => return Err(fault),
        };)*
        $(let $extensions = match $crate::extensions::<$table>($alloc, $members, $steps) {
            Ok($extensions) => $extensions,
            Err(fault) => return Err(fault),
        };)?
        Ok($($value)::+ { $($field,)* $($extensions)? })
    }};
}

/// Appends the fields of an object by its table, each by the call that its line names:
/// [`put_required`](crate::put_required), [`put_optional`](crate::put_optional), [`put_nullable`](crate::put_nullable)
/// or [`put_implied`](crate::put_implied). The field of the extensions comes last, behind `..`: with it, the macro
/// evaluates to the result of writing them. Behind `bound`, the fields are names that a pattern binds.
#[macro_export]
macro_rules! write_rows {
    ($alloc:ident, $object:ident, $out:expr => { $($field:ident: $put:ident($name:literal),)* ..$extensions:ident }) => {{
        $($crate::$put($alloc, $object, $out, $name, &$object.$field)?;)*
        $crate::put_extensions($alloc, $object, $out, &$object.$extensions)
    }};
    ($alloc:ident, $object:ident, $out:expr => { $($field:ident: $put:ident($name:literal),)* }) => {
        $($crate::$put($alloc, $object, $out, $name, &$object.$field)?;)*
    };
    ($alloc:ident, $object:ident, $out:expr => bound { $($field:ident: $put:ident($name:literal),)* ..$extensions:ident }) => {{
        $($crate::$put($alloc, $object, $out, $name, $field)?;)*
        $crate::put_extensions($alloc, $object, $out, $extensions)
    }};
}

/// Makes a value of results, one for each field. It evaluates to the value, or to the first error in the order in which the
/// fields are listed. The results are [joined](crate::join), so that no value is held where a result may be an error. What
/// is large comes last, since each value is moved by all joins behind it.
#[macro_export]
macro_rules! from_joined {
    ($($value:ident)::+ { $($field:ident: $result:expr),+ $(,)? }) => {
        match $crate::joined!($($result),+) {
            Ok(joined) => {
                let $crate::nested!($($field),+) = joined;
                Ok($($value)::+ { $($field),+ })
            }
            Err(error) => Err(error),
        }
    };
}

/// Joins results, from the first one on.
#[macro_export]
macro_rules! joined {
    ($result:expr) => { $result };
    ($first:expr, $second:expr $(, $rest:expr)*) => { $crate::joined!($crate::join($first, $second) $(, $rest)*) };
}

/// The pattern of what [`joined!`](crate::joined) joins.
#[macro_export]
macro_rules! nested {
    ($value:tt) => { $value };
    ($first:tt, $second:ident $(, $rest:ident)*) => { $crate::nested!(($first, $second) $(, $rest)*) };
}

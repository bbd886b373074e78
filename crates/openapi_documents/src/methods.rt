//! The values of the eight methods of a path item.
ghost use Rattle.std.specs.Map.Iter.{TakesFirst};
ghost use Rattle.openapi_tables.specs.Operations.{methods};
ghost use Rattle.openapi_documents.specs.Present.{NoneStands, owned_method, those_held, under_methods};

/// The value of each method, if it has one.
#[derive(Drop)]
pub(crate) struct Methods<T> {
    pub get: Option<T>,
    pub put: Option<T>,
    pub post: Option<T>,
    pub delete: Option<T>,
    pub options: Option<T>,
    pub head: Option<T>,
    pub patch: Option<T>,
    pub trace: Option<T>,
}

/// Removes the first value that exists, and returns it with its method.
macro_rules! take_each {
    ($methods:ident: $($method:ident)*) => {
        $(if let Some(value) = $methods.$method.take() {
            return Some((stringify!($method), value));
        })*
    };
}

impl<T: Drop> Methods<T> {
    /// Creates the value in which no method has one.
    pub(crate) fn none() -> Methods<T>
        ensures { NoneStands result }
    {
        Methods {
            get: None,
            put: None,
            post: None,
            delete: None,
            options: None,
            head: None,
            patch: None,
            trace: None,
        }
    }

    /// Removes the first value that exists, and returns it with its method.
    pub(crate) fn take_first(&mut self) -> Option<(&'static str, T)>
        ensures { TakesFirst owned_method (those_held methods (under_methods self.old)) result
            (those_held methods (under_methods self.new)) }
    {
        take_each!(self: get put post delete options head patch trace);
        None
    }
}

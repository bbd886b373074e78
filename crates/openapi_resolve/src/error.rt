//! Why a reference was not resolved.
use std::alloc::AllocError;
use std::fmt;

/// The reason why a reference was not resolved. It prints as one line of text, with the chain of references that was
/// followed.
#[derive(Debug, Drop, PartialEq)]
pub enum ResolveError {
    /// The last reference of the chain leads to no component of the expected kind. No component has its name, or the
    /// component is of another kind, or the reference is not of the form `#/components/SECTION/NAME`.
    Missing(Vec<String>),
    /// The last reference of the chain is also an earlier one of it.
    Cycle(Vec<String>),
    /// An allocation failed.
    OutOfMemory,
}

impl fmt::Display for ResolveError {
    fn fmt<W: fmt::Write>(&self, f: &mut fmt::Formatter<W>) -> fmt::Result {
        match self {
            ResolveError::Missing(chain) => {
                write_chain(f, chain)?;
                write!(f, " leads to no component of its kind")
            }
            ResolveError::Cycle(chain) => {
                write_chain(f, chain)?;
                write!(f, " is a cycle")
            }
            ResolveError::OutOfMemory => write!(f, "out of memory"),
        }
    }
}

/// Writes the references of a chain, with an arrow between two of them.
fn write_chain<W: fmt::Write>(f: &mut fmt::Formatter<W>, chain: &Vec<String>) -> fmt::Result {
    for (i, reference) in chain.iter().enumerate() {
        if i > 0 {
            write!(f, " -> ")?;
        }
        write!(f, "{reference}")?;
    }
    Ok(())
}

impl std::error::Error for ResolveError {}

impl From<AllocError> for ResolveError {
    ghost use Rattle.std.specs.Prelude.{◌≡◌};
    ghost use Rattle.openapi_resolve.specs.declared.error.ResolveError.TheVariants.{OutOfMemory};

    ghost from_gives = { λ e r. r ≡ OutOfMemory };

    fn from(_: AllocError) -> ResolveError {
        ResolveError::OutOfMemory
    }
}

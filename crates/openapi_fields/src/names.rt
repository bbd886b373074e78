//! Sets of names: those of all members, and the classes of the tables.
ghost use Rattle.std.proofs.Common.{refl};
ghost use Rattle.std.specs.Prelude.{◌≡◌, true};
ghost use Rattle.openapi_tables.specs.Kind as kinds;

/// A set of names, by a test.
pub trait Names {
    ghost use Rattle.std.specs.Prelude.{◌≡◌, ℕ, Bool, List};

    /// The test.
    ghost test: { List ℕ → Bool };

    /// Returns whether a name is in the set.
    fn contains(name: &str) -> bool
        ensures { result ≡ test name.now };
}

/// The names of a class of the tables.
pub trait ClassNames: Names {
    ghost use Rattle.std.specs.Prelude.{◌≡◌, ℕ, List};
    ghost use Rattle.openapi_tables.specs.Kind.{Class, in_class};
    ghost use Rattle.openapi_tables.specs.Read.{key_in};
    ghost use Rattle.openapi_tables.specs.Form.{name};

    /// The class.
    ghost class: { Class };

    /// The test is that of the class.
    ghost by_class: { (n : List ℕ) → Self.test n ≡ in_class Self.class n };

    /// The entries of the class are kept by their names.
    ghost by_name: { (n : List ℕ) → key_in Self.class n ≡ name n };
}

/// All names.
pub struct AllNames;

impl Names for AllNames {
    ghost test = { λ n. true };

    fn contains(_name: &str) -> bool {
        true
    }
}

/// The names of extensions, which begin with `x-`.
pub struct Extensions;

impl Names for Extensions {
    ghost test = { kinds.in_class kinds.extensions };

    fn contains(name: &str) -> bool {
        name.as_bytes().starts_with(b"x-")
    }
}

impl ClassNames for Extensions {
    ghost class = { kinds.extensions };

    ghost by_class = { λ n. refl };

    ghost by_name = { λ n. refl };
}

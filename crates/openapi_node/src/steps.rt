//! A counter that only contracts see.
ghost use Rattle.std.specs.Prelude.{◌≡◌, ◌+◌, ℕ};
ghost use Rattle.std.specs.Coded.{coded_ℕ};

use std::marker::Model;

// A number that only proofs use. Code can't state which value a ghost field has. So `zero` and `next` are the two
// functions here that are proved by hand, on the logic's own level (`proofs/steps/Count`): each of them picks the
// number that it ensures.
//
// A struct with a ghost field is made where its fields can be named, and `Count` and the field of `Steps` are private.
// So no other crate makes a `Count` or puts one into a `Steps`. There a `Steps` comes only from `Steps::new`, and only
// `Node::open` changes its number. Only another proof by hand (a file `Proof.antt`) could prove something else, and
// there are only these two.
#[derive(Drop)]
struct Count {
    ghost number: { ℕ } by { coded_ℕ },
}

impl Model for Count {
    ghost use base.Fml.{ftrue};

    ghost also_owns = { λ _. ftrue };
}

impl Count {
    // The number 0.
    fn zero() -> Count
        ensures { result.number ≡ 0 }
    {
        Count {}
    }

    // One more than this number.
    fn next(&self) -> Count
        ensures { result.number ≡ self.now.number + 1 }
    {
        Count {}
    }
}

/// The number of node accesses so far, which only contracts see.
///
/// It takes no bytes and has no greatest value. An access ([`Node::open`](crate::Node::open)) raises it by one, and
/// nothing else changes it. It can't be copied, and none can be created without the runtime.
#[derive(Drop)]
pub struct Steps {
    count: Count,
}

impl Model for Steps {
    ghost use Rattle.std.specs.Prelude.{ℕ};

    ghost Value = { ℕ };

    ghost view = { λ s. s.count.number };
}

impl Steps {
    /// Creates a counter without accesses.
    ///
    /// The runtime isn't used. It shows that the caller is a program or a test, and no reader.
    pub fn new(_rt: &HostRuntime) -> Steps
        ensures { result ≡ 0 }
    {
        Steps {
            count: Count::zero(),
        }
    }

    /// Counts one access.
    pub(crate) fn tick(&mut self)
        ensures { self.new ≡ self.old + 1 }
    {
        self.count = self.count.next();
    }
}

//! The operations that a transaction has made. They exist in proofs alone: a log takes no memory, and its calls do nothing.
ghost use Rattle.std.specs.Prelude.{◌≡◌, List, [], ◌∷◌, ◌++◌};
ghost use Rattle.std.specs.Borrow.{ftrue};
ghost use Rattle.qp_multi.specs.declared.meaning.Operation.{Operation};
ghost use Rattle.qp_multi.specs.Logged.{operations_code};

use crate::change::TrieChange;
use std::marker::Model;

/// Contracts read what it lists.
#[derive(Drop)]
pub struct Log {
    pub ghost operations: { List Operation } by { operations_code },
}

impl Model for Log {
    ghost also_owns = { λ _. ftrue };
}

impl Log {
    ghost use Rattle.qp_multi.specs.Changes.{operation_of};

    pub(crate) fn new() -> Log
        ensures { result.operations ≡ [] }
    {
        Log {}
    }

    /// The log with one operation more.
    pub(crate) fn then(&self, _change: &TrieChange<'_>) -> Log
        ensures { result.operations ≡ self.now.operations ++ operation_of _change.now ∷ [] }
    {
        Log {}
    }
}

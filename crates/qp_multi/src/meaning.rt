//! What the versions of an index mean, and how its tables are named. Nothing here is ever made: contracts speak of it.
use std::collections::LinkedList;
use std::marker::{Brand, Model, PhantomData};

/// A key with its item. Contracts see it as an entry of the trie.
pub struct KeyItem {
    pub key: LinkedList<u8>,
    pub item: LinkedList<u8>,
}

impl Model for KeyItem {
    ghost use Rattle.trie_model.specs.Keys.{Entry};

    ghost Value = { Entry };

    ghost view = { λ s. record { key = s.key; item = s.item } };
}

/// What a transaction does to a version.
pub enum Operation {
    Insert(KeyItem),
    Replace(KeyItem),
    Delete(LinkedList<u8>),
}

/// A version: its entries, in the order of their keys.
pub type Version = LinkedList<KeyItem>;

/// What a commit does: the operations of its transaction, in their order.
pub type Operations = LinkedList<Operation>;

/// Says which versions an index may have, and how many operations a commit.
pub trait Law {
    ghost use Rattle.std.specs.Prelude.{List, Option, None, ℕ};
    ghost use Rattle.trie_model.specs.Keys.{Entry};

    // A version may stand beside the opening one, which is named first.
    ghost lawful: { List Entry → List Entry → Type 0 };

    // The most operations that a commit may have, where there is a most.
    ghost most_operations: { Option ℕ } = { None };
}

/// The meaning of versions under a law, for the table that threads share.
pub struct Meaning<L> {
    law: PhantomData<L>,
}

impl<L: Law> shared_cells::HistoryLaw<Version, Operations> for Meaning<L> {
    ghost use Rattle.qp_multi.specs.Operations.{applied, AreWithin};
    ghost use Rattle.qp_multi.specs.Meanings.{IsVersion};

    ghost applied = { applied };

    ghost lawful = { L.lawful };

    ghost permitted = { AreWithin L.most_operations };

    ghost stands = { IsVersion };
}

/// Names the tables of a program's indexes, each by its place. What is behind a lock is known by its type alone, so the types
/// of an index have this parameter.
pub trait Named {
    ghost use Rattle.std.specs.Prelude.{List};
    ghost use Rattle.atomic_table.specs.Seated.{TableId};

    ghost tables: { List TableId };
}

impl Named for Brand {
    ghost use Rattle.std.specs.Prelude.{[]};

    ghost tables = { [] };
}

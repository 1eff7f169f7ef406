//! The items of a zone.
ghost use Rattle.std.specs.Prelude.{◌≡◌, ◌≤◌, [], length, IsTrue, ◌↔◌, Some, Option};
ghost use Rattle.master_file.specs.Prelude.{AllByRecursion, item_limit, CanBeItem, version_of, GivesItem};

use crate::owned::Owned;
use dns_name::SortKey;
use std::alloc::Global;
use std::collections::BTreeMap;
use std::collections::btree_map::{IntoValues, Values};
use std::marker::Model;

/// What the names of a zone own, in canonical order of the names. Contracts see the pairs that are left.
#[derive(Drop)]
pub struct IntoItems {
    left: IntoValues<SortKey, Owned, Global>,
}

impl Model for IntoItems {
    ghost use Rattle.std.specs.List.{AllByRecursion};
    ghost use Rattle.zone_model.specs.Versions.{Version};
    ghost use Rattle.master_file.specs.Owners.{CanBeItem};

    ghost Value = { Version };

    ghost view = { λ i. i.left };

    ghost invariant = { λ i. AllByRecursion CanBeItem i.left };
}

impl IntoItems {
    // Of all that is held.
    pub(crate) fn new(owned: BTreeMap<SortKey, Owned>) -> Self
        requires { AllByRecursion CanBeItem (version_of owned.entries) }
        ensures { result ≡ version_of owned.entries }
    {
        IntoItems {
            left: owned.into_values(),
        }
    }

    /// How many names are left.
    pub fn len(&self) -> usize
        ensures { result ≡ length self.now }
    {
        self.left.len()
    }

    /// No name is left.
    pub fn is_empty(&self) -> bool
        ensures { IsTrue result ↔ (self.now ≡ []) }
    {
        self.len() == 0
    }

    /// Writes the item of the next name, and answers how many octets it has; None where no name is left.
    pub fn next(&mut self, out: &mut [u8]) -> Option<usize>
        requires { item_limit ≤ length out.old }
        ensures { GivesItem result self.old self.new out.new }
    {
        let owned = self.left.next()?;
        Some(owned.encode(out))
    }
}

/// The same of a zone that stays. Contracts see the pairs that are left.
#[derive(Drop)]
pub struct LentItems<'a> {
    left: Values<'a, SortKey, Owned>,
}

impl<'a> Model for LentItems<'a> {
    ghost use Rattle.std.specs.List.{AllByRecursion};
    ghost use Rattle.zone_model.specs.Versions.{Version};
    ghost use Rattle.master_file.specs.Owners.{CanBeItem};

    ghost Value = { Version };

    ghost view = { λ i. i.left };

    ghost invariant = { λ i. AllByRecursion CanBeItem i.left };
}

impl<'a> LentItems<'a> {
    // Of all that is held.
    pub(crate) fn new(owned: &'a BTreeMap<SortKey, Owned>) -> Self
        requires { AllByRecursion CanBeItem (version_of owned.now.entries) }
        ensures { result ≡ version_of owned.now.entries }
    {
        LentItems {
            left: owned.values(),
        }
    }

    /// Writes the item of the next name, and answers how many octets it has; None where no name is left.
    pub fn next(&mut self, out: &mut [u8]) -> Option<usize>
        requires { item_limit ≤ length out.old }
        ensures { GivesItem result self.old self.new out.new }
    {
        let lent = self.left.next()?;
        Some(lent.encode(out))
    }
}

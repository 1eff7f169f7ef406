//! Names that take as much memory as they are long.
ghost use Rattle.std.specs.Prelude.{◌≡◌, IfOk};
ghost use Rattle.zone_model.specs.Names.{name_cmp, same_name, wire, IsName};

use crate::wire::compare;
use crate::{Name, of_wire};
use std::alloc::{AllocError, Global};
use std::cmp::Ordering;
use std::marker::Model;

/// A name on the heap, for collections of many names: 24 bytes and its wire form, where a [`Name`] has 256.
#[derive(Drop)]
pub struct OwnedName {
    octets: Vec<u8>,
}

impl Model for OwnedName {
    ghost use Rattle.std.specs.Prelude.{List, ℕ, length};
    ghost use Rattle.zone_model.specs.Names.{labels_in};
    ghost use Rattle.dns_name.specs.Spelling.{IsNameSpelled};

    ghost Value = { List (List ℕ) };

    ghost view = { λ n. labels_in (length n.octets.items) n.octets.items };

    ghost invariant = { λ n. IsNameSpelled n.octets.items };
}

impl OwnedName {
    /// The same name on the heap.
    pub fn of(alloc: Global, name: &Name) -> Result<OwnedName, AllocError>
        ensures { IfOk result (λ n. n ≡ name.now) }
    {
        Ok(OwnedName {
            octets: Vec::from_slice(alloc, name.wire())?,
        })
    }

    /// The same name in place.
    pub fn name(&self) -> Name
        ensures { result ≡ self.now }
    {
        of_wire(self.wire())
    }

    /// Its wire form.
    pub fn wire(&self) -> &[u8]
        ensures wire { result.now ≡ wire self.now }
        ensures name { IsName self.now }
    {
        &self.octets
    }
}

impl Ord for OwnedName {
    ghost use Rattle.zone_model.specs.NameOrder.{name_cmp_total};
    ghost use Rattle.std.proofs.Common.{rules};
    ghost use Rattle.std.specs.Cmp.Rules.{comparing};

    ghost cmp = { name_cmp };

    ghost total = { name_cmp_total };

    ghost matches_partial_cmp = { Prim.search (comparing, rules) };

    ghost matches_eq = { Prim.search (comparing, rules) };

    fn cmp(&self, other: &OwnedName) -> Ordering {
        compare(self.wire(), other.wire())
    }
}

impl PartialOrd for OwnedName {
    ghost use Rattle.std.specs.Ordering.{as_partial_cmp};
    ghost use Rattle.std.specs.Cmp.{partial_order_from_own_ties};
    ghost use Rattle.std.proofs.Common.{rules};
    ghost use Rattle.std.specs.Cmp.Rules.{comparing};

    ghost partial_cmp = { as_partial_cmp name_cmp };

    ghost laws = { partial_order_from_own_ties (Prim.search (comparing, rules)) (Prim.search (comparing, rules)) };

    fn partial_cmp(&self, other: &OwnedName) -> Option<Ordering> {
        Some(self.cmp(other))
    }
}

impl PartialEq for OwnedName {
    ghost use Rattle.zone_model.specs.NameOrder.{same_name_equiv};
    ghost use Rattle.std.specs.Cmp.{partial_equiv_from_equiv};

    ghost eq = { same_name };

    ghost laws = { partial_equiv_from_equiv same_name_equiv };

    fn eq(&self, other: &OwnedName) -> bool {
        self.cmp(other) == Ordering::Equal
    }
}

impl Eq for OwnedName {
    ghost use Rattle.zone_model.specs.NameOrder.{same_name_equiv};

    ghost laws = { same_name_equiv };
}

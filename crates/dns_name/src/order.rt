//! Names in their canonical order (RFC 4034, section 6.1).

ghost use Rattle.dns_name.specs.Prelude.{partial_order_from_own_ties, partial_equiv_from_equiv, as_partial_cmp};
ghost use Rattle.dns_name.specs.Prelude.{name_cmp, same_name, name_cmp_total, same_name_equiv, comparing};
ghost use Rattle.std.proofs.Common.{rules, refl};

use crate::Name;
use crate::wire::compare;
use std::cmp::Ordering;

impl Ord for Name {
    ghost cmp = { name_cmp };

    ghost total = { name_cmp_total };

    ghost matches_partial_cmp = { Prim.search (comparing, rules) };

    ghost matches_eq = { Prim.search (comparing, rules) };

    fn cmp(&self, other: &Name) -> Ordering {
        compare(self.wire(), other.wire())
    }
}

impl PartialOrd for Name {
    ghost partial_cmp = { as_partial_cmp name_cmp };

    ghost laws = { partial_order_from_own_ties (Prim.search (comparing, rules)) (Prim.search (comparing, rules)) };

    fn partial_cmp(&self, other: &Name) -> Option<Ordering> {
        Some(self.cmp(other))
    }
}

impl PartialEq for Name {
    ghost eq = { same_name };

    ghost laws = { partial_equiv_from_equiv same_name_equiv };

    fn eq(&self, other: &Name) -> bool {
        self.cmp(other) == Ordering::Equal
    }
}

impl Eq for Name {
    ghost laws = { same_name_equiv };
}

//! Laws of names, each as the contract of a function that does nothing: what it reads is for the proof.
ghost use Rattle.std.specs.Prelude.{◌≡◌, ℕ, List, Ok};
ghost use Rattle.dns_name.specs.Prelude.{IsTotalOrder, Ordering, Labels, IsName, name_cmp, BeginsWith, name_of, text_of, relative_text};

use crate::Name;

/// What is read from a printed name is that name, whatever the origin.
pub fn printed_names_read_back(name: &Name, origin: &Name)
    ensures { name_of (text_of name.now) origin.now ≡ Ok name.now }
{
    let _ = name.wire();
    let _ = origin;
}

/// What is read under an origin from a name that was printed relative to it is that name.
pub fn relative_names_read_back(name: &Name, origin: &Name)
    ensures { name_of (relative_text origin.now name.now) origin.now ≡ Ok name.now }
{
    let _ = name.wire();
    let _ = origin;
}

/// The canonical order is total, and calls names equal only where they are one.
pub fn names_are_in_one_order()
    ensures total { IsTotalOrder name_cmp }
    ensures antisymmetric { (a b : Labels) → name_cmp a b ≡ Ordering.Equal → a ≡ b }
{}

/// Bytes begin with the wire form of one name at most.
pub fn wire_forms_are_told_apart()
    ensures { (bytes : List ℕ) (a b : Labels) → IsName a → IsName b → BeginsWith bytes a → BeginsWith bytes b → a ≡ b }
{}

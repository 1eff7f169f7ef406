//! Laws of keys, each as the contract of a function that does nothing.
ghost use Rattle.std.specs.Prelude.{◌≡◌, ◌≤◌, ◌↔◌, ℕ, List, length, take};
ghost use Rattle.shift_key.specs.Prelude.{Labels, IsName, name_cmp, key_of, key_cmp, IsKey, Leads, most_item_octets, KeyShape};

/// Keys compare, position by position, as their names do in canonical order.
pub fn keys_are_in_the_order_of_names()
    ensures { (a b : Labels) → IsName a → IsName b → key_cmp (key_of a) (key_of b) ≡ name_cmp a b }
{}

/// Different names have different keys.
pub fn keys_tell_names_apart()
    ensures { (a b : Labels) → IsName a → IsName b → key_of a ≡ key_of b → a ≡ b }
{}

/// Keys have at most 504 positions below 47, end with a 0, and have no two zeros side by side.
pub fn keys_have_a_shape()
    ensures { (key : List ℕ) → IsKey key → KeyShape key }
{}

/// One key at most leads an item, and the item's first 256 octets tell which.
pub fn items_tell_their_keys()
    ensures once { (a b item : List ℕ) → Leads a item → Leads b item → a ≡ b }
    ensures front { (key item : List ℕ) → length item ≤ most_item_octets → Leads key item ↔ Leads key (take 256 item) }
{}

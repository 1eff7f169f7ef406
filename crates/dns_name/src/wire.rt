//! Walks over wire forms.
ghost use Rattle.std.specs.Prelude.{◌≡◌, ◌≤◌, ◌<◌, length, drop, [], List, ℕ};
ghost use Rattle.dns_name.specs.Prelude.{ordering_then, Labels, wire, name_cmp, is_under, Spells, IsSpelled, HasLabels, IsFirst};

use std::cmp::Ordering;

/// The first label of a wire form, and the bytes of the others; None for the root.
pub fn first(bytes: &[u8]) -> Option<(&[u8], &[u8])>
    requires { IsSpelled bytes.now }
    ensures { (labels : Labels) → Spells bytes.now labels → IsFirst labels result }
{
    let len = bytes[0] as usize;
    if len == 0 {
        return None;
    }
    Some(bytes[1..].split_at(len))
}

// How many labels there are.
pub fn count(bytes: &[u8]) -> usize
    requires { IsSpelled bytes.now }
    ensures { (labels : Labels) → Spells bytes.now labels → result ≡ length labels }
{
    let mut count = 0;
    let mut rest = bytes;
    while let Some((_, after)) = first(rest) {
        count += 1;
        rest = after;
    }
    count
}

// The bytes behind so many labels.
pub fn skip(bytes: &[u8], labels: usize) -> &[u8]
    requires { HasLabels bytes.now labels }
    ensures { (all : Labels) → Spells bytes.now all → Spells result.now (drop labels all) }
{
    let mut rest = bytes;
    for _ in 0..labels {
        if let Some((_, after)) = first(rest) {
            rest = after;
        }
    }
    rest
}

// The canonical order. Later labels weigh more.
pub fn compare(a: &[u8], b: &[u8]) -> Ordering
    requires a { IsSpelled a.now }
    requires b { IsSpelled b.now }
    ensures { (x y : Labels) → Spells a.now x → Spells b.now y → result ≡ name_cmp x y }
{
    let depth_a = count(a);
    let depth_b = count(b);
    let depth = depth_a.min(depth_b);
    compare_alike(
        skip(a, depth_a - depth),
        skip(b, depth_b - depth),
        depth_a.cmp(&depth_b),
    )
}

// The order of names with as many labels, and else the one given.
fn compare_alike(a: &[u8], b: &[u8], tie: Ordering) -> Ordering
    requires a { IsSpelled a.now }
    requires b { IsSpelled b.now }
    ensures { (x y : Labels) → Spells a.now x → Spells b.now y → length x ≡ length y → result ≡ ordering_then (name_cmp x y) tie }
{
    let mut left = a;
    let mut right = b;
    let mut order = tie;
    while let Some((x, after_x)) = first(left) {
        if let Some((y, after_y)) = first(right) {
            order = x.cmp(y).then(order);
            right = after_y;
        }
        left = after_x;
    }
    order
}

// The first name is at or under the second: from some label on they are the same bytes.
pub fn under(a: &[u8], b: &[u8]) -> bool
    requires a { IsSpelled a.now }
    requires b { IsSpelled b.now }
    ensures { (x y : Labels) → Spells a.now x → Spells b.now y → result ≡ is_under x y }
{
    let mut rest = a;
    while rest.len() > b.len() {
        let Some((_, after)) = first(rest) else {
            return false;
        };
        rest = after;
    }
    rest == b
}

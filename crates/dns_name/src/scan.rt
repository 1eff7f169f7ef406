//! Wire forms among bytes of any kind.
ghost use Rattle.std.specs.Prelude.{◌≡◌, ◌<◌, ◌≤◌, ◌↔◌, length, List, ℕ, IsTrue, IfSome, IsNone, take};
ghost use Rattle.dns_name.specs.Prelude.{AllByRecursion, Labels, wire, IsName, IsLabel, IsFolded};
ghost use Rattle.dns_name.specs.Prelude.{BeginsWith, IsNameSpelled, BeginsWithLabel, HasLabelOf};

// All letters are in lower case.
fn is_folded(label: &[u8]) -> bool
    ensures { IsTrue result ↔ AllByRecursion IsFolded label.now }
{
    label
        .iter()
        .all(|octet| octet.to_ascii_lowercase() == *octet)
}

// How many bytes the label in front has, with its length octet; None where no label is in front.
fn label_len(bytes: &[u8]) -> Option<usize>
    ensures found { IfSome result (HasLabelOf bytes.now) }
    ensures none { IsNone result → (label : List ℕ) → IsLabel label → BeginsWithLabel bytes.now label → ⊥ }
{
    let len = *bytes.first()? as usize;
    if len == 0 || len > 63 || len >= bytes.len() || !is_folded(&bytes[1..len + 1]) {
        return None;
    }
    Some(len + 1)
}

// How many bytes the name in front has; None where no name is in front.
pub fn wire_len(bytes: &[u8]) -> Option<usize>
    ensures within { IfSome result (λ n. n ≤ length bytes.now) }
    ensures found { IfSome result (λ n. IsNameSpelled (take n bytes.now)) }
    ensures none { IsNone result → (name : Labels) → IsName name → BeginsWith bytes.now name → ⊥ }
{
    let mut at = 0;
    while at < bytes.len() && at < 255 {
        if bytes[at] == 0 {
            return Some(at + 1);
        }
        at += label_len(&bytes[at..])?;
    }
    None
}

//! The offsets of the branches above a leaf.

ghost use Rattle.std.specs.Prelude.{◌≡◌, ◌≤◌, length, take};
ghost use Rattle.trie_size.specs.Ways.{before, meets};

/// How many of the offsets, which rise, come before this one; and whether it is the next of them.
pub fn split_at_offset(offsets: &[u16], offset: u16) -> (usize, bool)
    ensures before { take result.0 offsets.now ≡ before offset offsets.now }
    ensures inside { result.0 ≤ length offsets.now }
    ensures meets { result.1 ≡ meets offset offsets.now }
{
    for (i, above) in offsets.iter().enumerate() {
        if *above >= offset {
            return (i, *above == offset);
        }
    }
    (offsets.len(), false)
}

//! An index whose law lets a commit have one operation at most.
ghost use Rattle.std.specs.Prelude.{◌≡◌, Some, slice_get};
ghost use Rattle.trie_model.specs.Keys.{Rises};
ghost use Rattle.trie_write.specs.Entries.{entries_of_items};

use crate::items::numbered;
use qp_multi::{Blank, Index, Law, Named, WriteGuard};
use std::alloc::Global;
use std::marker::Brand;
use std::sync::Wait;
use trie_write::Item;

/// Every version is lawful, and a commit has one operation at most.
struct Single;

impl Law for Single {
    ghost use Rattle.std.specs.Prelude.{Some};

    ghost lawful = { λ first es. Unit {0} };

    ghost most_operations = { Some 1 };
}

/// Exchanges one item of an index of its own, and commits. The version that was made.
fn run<N: Named, R: Wait>(
    rt: &R,
    alloc: Global,
    blank: Blank<Single>,
    first: &[Item],
    second: &Item,
) -> Option<u64>
    requires named { slice_get N.tables 0 ≡ Some blank.shared.table.shared.table_id }
    requires rising { Rises (entries_of_items first.now) }
{
    let Ok((index, mut passes)) = Index::<Single, N>::open(alloc, blank, 0, first) else {
        return None;
    };
    let mut pass = passes.pop()?;
    let mut locked = WriteGuard::of(&index);
    let mut write = index.write(rt, &mut locked, &mut pass);
    write.replace(&second.key(), second.octets()).ok()?;
    Some(write.commit().ok()?.version)
}

/// The same of one item.
fn play<R: Wait>(rt: &R, alloc: Global) -> Option<u64> {
    let second = numbered(alloc, [b'a', b'a'], 2, 600)?;
    let first = [numbered(alloc, [b'a', b'a'], 1, 600)?];
    let blank = Blank::<Single>::new(alloc, 16, 1).ok()?;
    run::<Brand, _>(rt, alloc, blank, &first, &second)
}

#[test]
fn a_commit_of_one_operation(rt: HostRuntime) {
    assert!(rt; play(&rt, rt.alloc()) == Some(1));
}

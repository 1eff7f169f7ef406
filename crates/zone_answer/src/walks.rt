//! The names that follow a name, in either direction.

ghost use Rattle.std.specs.Prelude.{◌≡◌, ◌++◌, [], ◌∷◌, List, IfOk, map, take, reverse};
ghost use Rattle.zone_answer.specs.Prelude.{AllByRecursion, keys_of, Version, Entry, IsStanding, IsStorable, Shows, ShowsSome, trie_entry};
ghost use Rattle.zone_answer.specs.Around as around;

use dns_name::Name;
use shift_key::Key;
use std::alloc::{AllocError, Global};
use trie_read::{Iter, Reading};

/// The first names behind an iterator's place, at most so many.
fn next_names<V: Reading>(
    alloc: Global,
    version: &mut V,
    iter: &mut Iter,
    most: usize,
) -> Result<Vec<Name>, AllocError>
    requires { IsStanding (V.stands version.old iter.old) }
    ensures same { version.new ≡ version.old }
    ensures names { (before : List Entry) (rest : Version) → AllByRecursion IsStorable rest → V.stands version.old iter.old before (map trie_entry rest)
        → IfOk result (λ names. names.items ≡ take most (keys_of rest)) }
{
    let mut names = Vec::new(alloc);
    while names.len() < most {
        let Some(leaf) = version.next_leaf(iter) else {
            return Ok(names);
        };
        names.push(version.name(leaf))?;
    }
    Ok(names)
}

/// The last names before an iterator's place, the nearest first, at most so many.
fn previous_names<V: Reading>(
    alloc: Global,
    version: &mut V,
    iter: &mut Iter,
    most: usize,
) -> Result<Vec<Name>, AllocError>
    requires { IsStanding (V.stands version.old iter.old) }
    ensures same { version.new ≡ version.old }
    ensures names { (rest : Version) (after : List Entry) → AllByRecursion IsStorable rest → V.stands version.old iter.old (map trie_entry rest) after
        → IfOk result (λ names. names.items ≡ take most (reverse (keys_of rest))) }
{
    let mut names = Vec::new(alloc);
    while names.len() < most {
        let Some(leaf) = version.prev_leaf(iter) else {
            return Ok(names);
        };
        names.push(version.name(leaf))?;
    }
    Ok(names)
}

/// The first names at or after a name, at most so many.
#[inline(never)]
pub fn walk<V: Reading>(
    alloc: Global,
    version: &mut V,
    name: &Name,
    most: usize,
) -> Result<Vec<Name>, AllocError>
    requires { ShowsSome (V.holds version.old) }
    ensures same { version.new ≡ version.old }
    ensures names { (zone : Version) → Shows (V.holds version.old) zone → IfOk result (λ names. names.items ≡ around.walk name.now most zone) }
{
    let _wire = name.wire(); // for the proof
    let mut iter = version.iter();
    version.seek(&mut iter, &Key::of(name));
    next_names(alloc, version, &mut iter, most)
}

/// The last names before a name, the nearest first, at most so many.
#[inline(never)]
pub fn back<V: Reading>(
    alloc: Global,
    version: &mut V,
    name: &Name,
    most: usize,
) -> Result<Vec<Name>, AllocError>
    requires { ShowsSome (V.holds version.old) }
    ensures same { version.new ≡ version.old }
    ensures names { (zone : Version) → Shows (V.holds version.old) zone → IfOk result (λ names. names.items ≡ around.back name.now most zone) }
{
    let _wire = name.wire(); // for the proof
    let mut iter = version.iter();
    version.seek(&mut iter, &Key::of(name));
    previous_names(alloc, version, &mut iter, most)
}

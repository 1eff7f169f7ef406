//! What a version has of a name.

ghost use Rattle.std.specs.Prelude.{◌≡◌, ◌≤◌, List, IfOk, MatchOption, Some, None, length, map, take};
ghost use Rattle.zone_answer.specs.Prelude.{All, ancestor, Version, Shows, ShowsSome, Names};
ghost use Rattle.zone_answer.specs.Around as around;

use dns_name::Name;
use shift_key::Key;
use std::alloc::{AllocError, Global};
use std::marker::Model;
use trie_read::{Chain, Kind, Reading};

/// What a version has of a name.
#[derive(Drop)]
pub struct Found {
    kind: Kind,
    chain: Vec<Name>,
    predecessor: Option<Name>,
}

impl Model for Found {
    ghost use Rattle.zone_answer.specs.Around.{Found};

    ghost Value = { Found };

    ghost view = { λ f. record { kind = f.kind; chain = f.chain.items; predecessor = f.predecessor } };
}

impl Found {
    /// Whether the name is there, or else names above it.
    pub fn kind(&self) -> Kind
        ensures { result ≡ self.now.kind }
    {
        self.kind
    }

    /// The names that are there at or above it, the top first.
    pub fn chain(&self) -> &[Name]
        ensures { result.now ≡ self.now.chain }
    {
        &self.chain
    }

    /// The last name that isn't after it.
    pub fn predecessor(&self) -> Option<&Name>
        ensures { MatchOption result (self.now.predecessor ≡ None) (λ name. self.now.predecessor ≡ Some name.now) }
    {
        self.predecessor.as_ref()
    }
}

/// The names at or above a name that have so many labels.
fn names_of(alloc: Global, name: &Name, chain: &Chain) -> Result<Vec<Name>, AllocError>
    requires { All (λ labels. labels ≤ length name.now) (take chain.now.len chain.now.labels) }
    ensures { IfOk result (λ names. names.items ≡ map (λ labels. ancestor labels name.now) (take chain.now.len chain.now.labels)) }
{
    let mut names = Vec::new(alloc);
    for labels in &chain.labels[..chain.len as usize] {
        names.push(name.cut(*labels))?;
    }
    Ok(names)
}

fn name_of(key: Option<Key>) -> Option<Name>
    ensures { Names key result }
{
    match key {
        None => None,
        Some(key) => {
            let name = key.to_name();
            let _wire = name.wire(); // for the proof
            Some(name)
        }
    }
}

/// What a version has of a name: whether it is there, the names at or above it, and the last name that isn't after it. Like
/// `walk` and `back` it stands by itself, since who calls it would clear the room for what it reads for any other question too.
#[inline(never)]
pub fn find<V: Reading>(alloc: Global, version: &mut V, name: &Name) -> Result<Found, AllocError>
    requires { ShowsSome (V.holds version.old) }
    ensures same { version.new ≡ version.old }
    ensures found { (zone : Version) → Shows (V.holds version.old) zone → IfOk result (λ found. found ≡ around.find name.now zone) }
{
    let _wire = name.wire(); // for the proof
    let found = version.find(&Key::of(name));
    let predecessor = name_of(found.pred);
    let chain = names_of(alloc, name, &found.chain)?;
    Ok(Found {
        kind: found.kind,
        chain,
        predecessor,
    })
}

//! What a pass remembers of the table: which zones are attached in the version that it has looked at last. A version never changes, so a name is located
//! without looking at it again.
ghost use Rattle.std.specs.Prelude.{◌≡◌, ◌↔◌, ◌≤◌, IsTrue, List, None, Some, length};
ghost use Rattle.zone_table.specs.Prelude.{Entry, IsHeld, AreAttached, IsAttached};

use dns_name::Name;
use shift_key::Key;
use trie_read::{Ancestors, Iter, Reading};

// What origins are looked up with. It takes some KiB that are cleared when it is made, so one serves for all.
#[derive(Drop)]
struct Finder {
    key: Key,
    place: Iter,
    above: Ancestors,
}

impl Finder {
    fn new() -> Finder {
        Finder {
            key: Key::root(),
            place: Iter::start(None),
            above: Ancestors::new(),
        }
    }

    // Whether a version has the origin.
    fn has<V: Reading>(&mut self, version: &mut V, origin: &Name) -> bool
        requires { IsHeld (V.holds version.old) }
        ensures same { version.new ≡ version.old }
        ensures has { (es : List Entry) → V.holds version.old es → IsTrue result ↔ IsAttached es origin.now }
    {
        self.key.set(origin);
        version.restart(&mut self.place);
        let leaf = version.lookup(&mut self.place, &self.key, &mut self.above);
        leaf.is_some()
    }
}

// For each zone whether it is attached in a version of the table of these origins.
fn attached_in<V: Reading>(version: &mut V, origins: &[Name]) -> [bool; 16]
    requires few { length origins.now ≤ 16 }
    requires held { IsHeld (V.holds version.old) }
    ensures same { version.new ≡ version.old }
    ensures attached { (es : List Entry) → V.holds version.old es → AreAttached origins.now es result }
{
    let mut attached = [false; 16];
    let mut finder = Finder::new();
    for zone in 0..origins.len() {
        attached[zone] = finder.has(version, &origins[zone]);
    }
    attached
}

/// For each zone whether it is attached, in the version of this number.
#[derive(Drop)]
pub struct Remembered {
    /// None where no version was looked at.
    pub version: Option<u64>,
    pub attached: [bool; 16],
}

impl Remembered {
    pub fn nothing() -> Remembered
        ensures { result.version ≡ None }
    {
        Remembered {
            version: None,
            attached: [false; 16],
        }
    }

    /// What is remembered of this version.
    pub fn of<V: Reading>(version: &mut V, origins: &[Name]) -> Remembered
        requires few { length origins.now ≤ 16 }
        requires held { IsHeld (V.holds version.old) }
        ensures same { version.new ≡ version.old }
        ensures version { result.version ≡ Some (V.number version.old) }
        ensures attached { (es : List Entry) → V.holds version.old es → AreAttached origins.now es result.attached }
    {
        let number = version.version();
        Remembered {
            version: Some(number),
            attached: attached_in(version, origins),
        }
    }
}

//! The turn's rounds: which versions stay kept.
ghost use Rattle.std.specs.Prelude.{◌≡◌, ◌∷◌, ◌<◌, AllPairs, length, true, []};
ghost use Rattle.shared_cells.specs.Prelude.{mark_of, is_settled, Adds, CanMark, CanRound, KeepsNamed, Marks, Rounded};

use crate::law::HistoryLaw;
use crate::plays::{Assign, Look, Scan};
use crate::shared::Shared;
use crate::turn::{JoinedSeat, TurnSeat};
use crate::view::Place;
use arrayvec::ArrayVec;
use pin_core::words::{
    CUR, ENTERING, FIRST_PIN, IDLE, PIN_OFFSET, pin_after_exchange, version_of_pin,
};
use std::marker::Model;

/// Versions that the turn keeps: at most one for each pass and the current one, rising. Contracts see them as a list.
#[derive(Drop)]
pub struct KeptVersions {
    versions: ArrayVec<u64, 65>,
}

impl Model for KeptVersions {
    ghost use Rattle.std.specs.Prelude.{List, ℕ, ◌<◌, AllPairs};

    ghost Value = { List ℕ };

    ghost view = { λ s. s.versions.items };

    ghost invariant = { λ s. AllPairs (λ v w. v < w) s.versions.items };
}

impl KeptVersions {
    /// The versions, rising.
    pub fn as_slice(&self) -> &[u64]
        ensures versions { result.now ≡ self.now }
        ensures rising { AllPairs (λ v w. v < w) self.now }
    {
        self.versions.as_slice()
    }

    /// None.
    pub fn new() -> KeptVersions
        ensures { result ≡ [] }
    {
        KeptVersions {
            versions: ArrayVec::new(),
        }
    }

    // No version but this one.
    fn begin(&mut self, version: u64)
        ensures { self.new ≡ version ∷ [] }
    {
        self.versions.clear();
        self.versions.push(version);
    }

    /// Adds a version, if it isn't there.
    fn add(&mut self, version: u64)
        requires { length self.old < 65 }
        ensures adds { Adds version self.old self.new }
        ensures rising { AllPairs (λ v w. v < w) self.new }
    {
        if let Err(place) = self.versions.binary_search(&version) {
            self.versions.insert(place, version);
        }
    }
}

impl<O, E> TurnSeat<O, E> {
    /// Looks at each pass's pin once, and helps the passes that are about to look. Kept are then the current version and
    /// those that the pins named, and no others. What the list had is lost.
    pub fn round<L: HistoryLaw<O, E>>(&mut self, shared: &Shared<O, E, L>, kept: &mut KeptVersions)
        requires { self.old.place.table_id ≡ shared.now.table.shared.table_id }
        ensures table { self.new.place.table_id ≡ self.old.place.table_id }
        ensures numbers { (self.new.version ≡ self.old.version) × (self.new.passes ≡ self.old.passes) }
        ensures rounded { Rounded self.old.place.me.0 self.new.place.me.0 kept.new }
        ensures kept { KeepsNamed self.old.passes self.old.version self.new.place.me.0 kept.new }
    {
        let passes = self.passes;
        let version = self.version;
        make_round(shared, &mut self.place, passes, version, kept);
    }
}

impl<O, E> JoinedSeat<O, E> {
    /// Looks at each pass's pin once, and helps the passes that are about to look. Kept are then the current version and
    /// those that the pins named, and no others. What the list had is lost.
    pub fn round<L: HistoryLaw<O, E>>(&mut self, shared: &Shared<O, E, L>, kept: &mut KeptVersions)
        requires { self.old.place.table_id ≡ shared.now.table.shared.table_id }
        ensures table { self.new.place.table_id ≡ self.old.place.table_id }
        ensures numbers { (self.new.version ≡ self.old.version) × (self.new.passes ≡ self.old.passes) × (self.new.number ≡ self.old.number) }
        ensures rounded { Rounded self.old.place.me.0 self.new.place.me.0 kept.new }
        ensures kept { KeepsNamed self.old.passes self.old.version self.new.place.me.0 kept.new }
    {
        let passes = self.passes;
        let version = self.version;
        make_round(shared, &mut self.place, passes, version, kept);
    }
}

/// A round of the turn: it ends with the last pass's mark.
fn make_round<O, E, L: HistoryLaw<O, E>>(
    shared: &Shared<O, E, L>,
    place: &mut Place<O, E>,
    passes: u32,
    version: u64,
    kept: &mut KeptVersions,
)
    requires table { place.old.table_id ≡ shared.now.table.shared.table_id }
    requires can { CanRound passes version place.old.me.0 }
    ensures table { (place.new.table_id ≡ place.old.table_id) × (place.new.me.1 ≡ place.old.me.1) }
    ensures rounded { Rounded place.old.me.0 place.new.me.0 kept.new }
    ensures kept { KeepsNamed passes version place.new.me.0 kept.new }
{
    let word = shared.table.shared.load::<Look<L>>(place, CUR);
    kept.begin(version);
    for pass in 0..passes {
        let pin = mark_pass(shared, place, pass, word);
        if pin != IDLE {
            kept.add(version_of_pin(pin));
        }
    }
}

/// Marks a pass as idle or pinned by its pin, which is answered. One that is about to look is pinned at the current version,
/// of this word, unless it went on by itself.
///
/// A round doesn't wait for a pass that has entered, which may have lost its processor. It pins it at the current version, which is kept anyway;
/// the pass's own exchange fails then, and it reads that one.
fn mark_pass<O, E, L: HistoryLaw<O, E>>(
    shared: &Shared<O, E, L>,
    place: &mut Place<O, E>,
    pass: u32,
    word: u64,
) -> u64
    requires table { place.old.table_id ≡ shared.now.table.shared.table_id }
    requires can { CanMark pass word place.old.me.0 }
    ensures table { (place.new.table_id ≡ place.old.table_id) × (place.new.me.1 ≡ place.old.me.1) }
    ensures marked { Marks place.old.me.0 pass result place.new.me.0 }
    ensures settled { is_settled (mark_of result) ≡ true }
{
    let at = FIRST_PIN + pass as usize;
    let found = shared.table.shared.load::<Scan>(place, at);
    if found != ENTERING {
        return found;
    }
    let found = shared
        .table
        .shared
        .compare_exchange::<Assign>(place, at, ENTERING, word + PIN_OFFSET);
    pin_after_exchange(found, word)
}

//! Notes: what one pass of the zones has seen is told to another.
ghost use Rattle.std.specs.Prelude.{◌≡◌, ℕ, IfOk, map};
ghost use Rattle.zone_table.specs.Prelude.{known_at, IsPassOf, StandAt, IsNoteOf, KnowsSame, Tells, TellEach, LearntAt, HasLearnt};

use crate::pass::ZonesPass;
use crate::zones::Zones;
use qp_multi::{Index, Law, Named, Note, Pass};
use std::alloc::{AllocError, Global};

/// What a pass had seen of the table and of each zone, for another to learn. It may go to another thread.
#[derive(Drop)]
pub struct ZonesNote<N: Named> {
    pub(crate) table: Note<N>,
    /// One for each zone, in the order of their numbers.
    pub(crate) zones: Vec<Note<N>>,
}

// A note of what each pass has seen.
fn note_each<L: Law, N: Named>(
    alloc: Global,
    passes: &mut Vec<Pass<N>>,
    zones: &Vec<Index<L, N>>,
) -> Result<Vec<Note<N>>, AllocError>
    requires { StandAt (map (λ z. z.place) zones.now.items) passes.old.items }
    ensures stand { StandAt (map (λ z. z.place) passes.old.items) passes.new.items }
    ensures same { map (λ z. known_at z.seat) passes.new.items ≡ map (λ z. known_at z.seat) passes.old.items }
    ensures of { IfOk result (λ notes. map (λ z. z.place) notes.items ≡ map (λ z. z.place) passes.old.items) }
    ensures told { IfOk result (λ notes. TellEach passes.old.items notes.items) }
{
    let mut notes = Vec::with_capacity(alloc, passes.len())?;
    for place in 0..passes.len() {
        let note = passes[place].note(&zones[place]);
        notes.push(note)?;
    }
    Ok(notes)
}

// Each pass learns what the note tells that is at its place.
fn learn_each<L: Law, N: Named>(
    passes: &mut Vec<Pass<N>>,
    zones: &Vec<Index<L, N>>,
    notes: Vec<Note<N>>,
)
    requires stand { StandAt (map (λ z. z.place) zones.now.items) passes.old.items }
    requires notes { map (λ z. z.place) notes.items ≡ map (λ z. z.place) zones.now.items }
    ensures stand { StandAt (map (λ z. z.place) passes.old.items) passes.new.items }
    ensures learnt { (place : ℕ) → LearntAt (map (λ z. known_at z.seat) passes.old.items) (map (λ z. known_at z.seat) passes.new.items)
        (map (λ z. z.told.place.me.0.seen) notes.items) place }
{
    let mut notes = notes;
    while let Some(note) = notes.pop() {
        let place = notes.len();
        passes[place].learn(&zones[place], note);
    }
}

impl<N: Named> ZonesPass<N> {
    /// A note of what this pass has seen.
    pub fn note<L: Law>(
        &mut self,
        alloc: Global,
        zones: &Zones<L, N>,
    ) -> Result<ZonesNote<N>, AllocError>
        requires pass { IsPassOf zones.now.origins.items self.old }
        ensures pass { IsPassOf zones.now.origins.items self.new }
        ensures same { KnowsSame self.old self.new }
        ensures of { IfOk result (IsNoteOf zones.now.origins.items) }
        ensures told { IfOk result (Tells self.old) }
    {
        let zone_notes = note_each(alloc, &mut self.zones, &zones.zones)?;
        let table = self.table.note(&zones.table);
        Ok(ZonesNote {
            table,
            zones: zone_notes,
        })
    }

    /// Learns what the note tells. From then on the pass sees no less, of the table and of each zone.
    pub fn learn<L: Law>(&mut self, zones: &Zones<L, N>, note: ZonesNote<N>)
        requires pass { IsPassOf zones.now.origins.items self.old }
        requires note { IsNoteOf zones.now.origins.items note }
        ensures pass { IsPassOf zones.now.origins.items self.new }
        ensures learnt { HasLearnt self.old self.new note }
    {
        let ZonesNote {
            table,
            zones: zone_notes,
        } = note;
        self.table.learn(&zones.table, table);
        learn_each(&mut self.zones, &zones.zones, zone_notes);
    }
}

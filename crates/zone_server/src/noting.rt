//! What one thread has seen is told to another.
ghost use Rattle.std.specs.Prelude.{◌≡◌, IfOk};
ghost use Rattle.zone_server.specs.Prelude.{HasLearnt, IsNote, IsServed, IsServing, StaysServing, Tells, known_of, told_of};

use crate::home::Home;
use crate::server::{Server, ServerPass};
use job_commands::ZoneLaw;
use std::alloc::{AllocError, Global};
use std::marker::Model;
use zone_table::{Zones, ZonesNote, ZonesPass};

/// What a pass had seen of the table and of each zone, for another one to learn. It may go to another thread. Contracts see what it tells.
#[derive(Drop)]
pub struct ServerNote<H: Home> {
    note: ZonesNote<H>,
}

impl<H: Home> Model for ServerNote<H> {
    ghost use Rattle.zone_server.specs.Notes.{IsNote, ServerTold, told_of};

    ghost Value = { ServerTold };

    ghost view = { λ n. told_of n.note };

    ghost invariant = { λ n. IsNote H.zones n.note };
}

fn note_zones<H: Home>(
    alloc: Global,
    zones: &Zones<ZoneLaw, H>,
    pass: &mut ZonesPass<H>,
) -> Result<ZonesNote<H>, AllocError>
    requires zones { IsServed H.zones zones.now }
    requires pass { IsServing H.zones pass.old }
    ensures stays { StaysServing H.zones pass.old pass.new }
    ensures of { IfOk result (IsNote H.zones) }
    ensures told { IfOk result (λ n. Tells (known_of pass.old) (told_of n)) }
{
    pass.note(alloc, zones)
}

fn learn_zones<H: Home>(zones: &Zones<ZoneLaw, H>, pass: &mut ZonesPass<H>, note: ZonesNote<H>)
    requires zones { IsServed H.zones zones.now }
    requires pass { IsServing H.zones pass.old }
    requires note { IsNote H.zones note }
    ensures pass { IsServing H.zones pass.new }
    ensures learnt { HasLearnt (known_of pass.old) (known_of pass.new) (told_of note) }
{
    pass.learn(zones, note);
}

impl<H: Home> Server<H> {
    /// A note of what this pass has seen.
    pub fn note(&self, alloc: Global, pass: &mut ServerPass<H>) -> Result<ServerNote<H>, AllocError>
        ensures same { pass.new ≡ pass.old }
        ensures told { IfOk result (Tells pass.old) }
    {
        let note = note_zones(alloc, &self.zones, &mut pass.pass)?;
        Ok(ServerNote { note })
    }

    /// The pass learns what the note tells. From then on it sees no less of the table, and of each zone.
    pub fn learn(&self, pass: &mut ServerPass<H>, note: ServerNote<H>)
        ensures { HasLearnt pass.old pass.new note }
    {
        let ServerNote { note } = note;
        learn_zones(&self.zones, &mut pass.pass, note);
    }
}

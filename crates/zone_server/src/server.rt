//! A server, and a pass of it.
use crate::home::Home;
use job_commands::ZoneLaw;
use std::marker::Model;
use zone_answer::Scratch;
use zone_edit::ItemBuffers;
use zone_table::{Zones, ZonesPass};

/// Zones that are served at once. Threads share it; each asks and changes by a pass of its own.
#[derive(Drop)]
pub struct Server<H: Home> {
    pub(crate) zones: Zones<ZoneLaw, H>,
}

impl<H: Home> Model for Server<H> {
    ghost use Rattle.std.specs.Prelude.{List};
    ghost use Rattle.zone_server.specs.Homes.{Served};
    ghost use Rattle.zone_server.specs.Servings.{IsServed};

    ghost Value = { List Served };

    ghost view = { λ s. H.zones };

    ghost invariant = { λ s. IsServed H.zones s.zones };
}

/// A thread's place in a server. It asks or changes one thing at a time, and may go to another thread. What it takes to read and to
/// write items lies in it.
#[derive(Drop)]
pub struct ServerPass<H: Home> {
    pub(crate) pass: ZonesPass<H>,
    pub(crate) scratch: Scratch,
    pub(crate) items: ItemBuffers,
}

impl<H: Home> Model for ServerPass<H> {
    ghost use Rattle.zone_server.specs.Servings.{IsServing, ServerKnown, known_of};

    ghost Value = { ServerKnown };

    ghost view = { λ p. known_of p.pass };

    ghost invariant = { λ p. IsServing H.zones p.pass };
}

//! Commands of a script over zones.
ghost use Rattle.zones_script.specs.Views.{MayWait};

use dns_name::Name;
use job_script::{Block, Waits};

/// A command of a worker. A zone is told by its number: its place in the list of zones, from 0.
#[derive(Drop)]
pub enum Command {
    /// The answer for a name and a type, of the zone that the name belongs to.
    Get(Name, u16),
    /// A transaction of a zone.
    Block { zone: u32, block: Block },
    /// A zone is attached: names belong to it.
    Attach(u32),
    /// It is detached.
    Detach(u32),
}

impl Waits for Command {
    ghost waits = { MayWait };
}

/// A worker's list, in order.
#[derive(Drop)]
pub struct Worker {
    pub commands: Vec<Command>,
}

/// What a script says: its workers, in order.
#[derive(Drop)]
pub struct ZonesScript {
    pub workers: Vec<Worker>,
}

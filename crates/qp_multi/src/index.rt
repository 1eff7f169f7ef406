//! The index, and what its lock keeps.
ghost use Rattle.std.specs.Prelude.{◌≡◌, ◌≤◌, Some, slice_get};

use crate::meaning::{Law, Meaning, Named, Operations, Version};
use crate::writer::WriterAtRest;
use shared_cells::Shared;
use std::marker::PhantomData;
use std::sync::Mutex;

/// An index. Passes read it beside each other; the turn is for one transaction at a time.
#[derive(Drop)]
pub struct Index<L: Law, N: Named> {
    pub(crate) place: u32,
    /// How many passes it has.
    pub(crate) passes: u32,
    pub(crate) shared: Shared<Version, Operations, Meaning<L>>,
    /// The turn is away while a transaction has it, which then has the lock.
    pub(crate) turn: Mutex<Option<Turn<N>>>,
    ghost here: { slice_get N.tables place ≡ Some shared.table.shared.table_id },
    ghost counted: { passes ≡ shared.table.shared.key.passes },
    ghost some: { 1 ≤ shared.table.shared.key.passes },
}

/// The turn, as the lock keeps it.
#[derive(Drop)]
pub struct Turn<N: Named> {
    pub(crate) place: u32,
    pub(crate) writer: WriterAtRest,
    pub(crate) names: PhantomData<N>,
    ghost here: { slice_get N.tables place ≡ Some writer.seat.place.table_id },
}

impl<L: Law, N: Named> Index<L, N> {
    /// Its place among the indexes that are named.
    pub fn place(&self) -> u32
        ensures { result ≡ self.now.place }
    {
        self.place
    }
}

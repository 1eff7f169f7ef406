//! A pass: a reader's place in an index.
ghost use Rattle.std.specs.Prelude.{◌≡◌, Some, slice_get};
ghost use Rattle.std.specs.Option.{ForSome};

use crate::meaning::{Named, Operations, Version};
use shared_cells::PassSeat;
use std::marker::PhantomData;

/// A reader's place in an index, of which there is a fixed number. A pass asks one thing at a time; it may go to another thread.
#[derive(Drop)]
pub struct Pass<N: Named> {
    pub(crate) place: u32,
    /// It is away while a query or a transaction of this pass has it.
    pub(crate) seat: Option<PassSeat<Version, Operations>>,
    pub(crate) names: PhantomData<N>,
    ghost here: { ForSome seat (λ s. slice_get N.tables place ≡ Some s.place.table_id) },
}

impl<N: Named> Pass<N> {
    /// The place of its index among those that are named.
    pub fn place(&self) -> u32
        ensures { result ≡ self.now.place }
    {
        self.place
    }
}

//! A usage as what hands out cells.

use super::Usage;
use crate::space::{Grant, Shortage, Space};
use chunk_hints::Path;
use packed_node::Ref;

impl Space for Usage {
    ghost use Rattle.chunk_usage.specs.Rooms.{account_of};
    ghost use Rattle.chunk_usage.specs.Handing.{Lacks};

    ghost account = { account_of };

    ghost lacks = { Lacks };

    fn alloc(&mut self, n: u32) -> Result<Grant, Shortage> {
        self.known(); // for the proof
        Usage::alloc(self, n)
    }

    fn is_mutable(&self, at: Ref) -> bool {
        self.known(); // for the proof
        Usage::is_mutable(self, at)
    }

    fn release(&mut self, at: Ref, n: u32) {
        Usage::release(self, at, n);
    }

    fn note(&mut self, path: Path) {
        Usage::note_change(self, path);
    }

    fn release_all(&mut self) {
        Usage::release_all(self);
    }
}

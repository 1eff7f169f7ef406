//! What a pass sees of an index without reading a version.
ghost use Rattle.qp_multi.specs.Passes.{known_at, IsHere, Sees};

use crate::index::Index;
use crate::meaning::{Law, Named};
use crate::pass::Pass;

impl<N: Named> Pass<N> {
    /// Sees which version is current at some moment of the call: no older than what the pass had seen. It isn't pinned, so a query that follows may find
    /// a newer one. Who remembers what a version said is told by its number whether that still is the current one.
    #[inline]
    pub fn see<L: Law>(&mut self, index: &Index<L, N>) -> u64
        requires { IsHere index.now.place self.old }
        ensures back { IsHere self.old.place self.new }
        ensures sees { Sees L.lawful (known_at self.old.seat) (known_at self.new.seat) result }
    {
        let Some(seat) = &mut self.seat else {
            // No query and no transaction of this pass has its seat.
            unreachable!()
        };
        seat.see(&index.shared)
    }
}

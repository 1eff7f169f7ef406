//! How an index ends. The passes that are handed in tell what was published: one takes the last version when it has learnt what
//! the others have seen, and the others learn that of it.
//!
//! The turn isn't asked where there is a pass, since a lock's type doesn't say that the turn is there: a transaction that was
//! forgotten has kept it.
ghost use Rattle.std.specs.Prelude.{◌≡◌, [], IsSome, All, map};
ghost use Rattle.qp_multi.specs.Prelude.{known_at, AllSeen, Ends, Gathers, IsHere, IsOfTurn};

use crate::index::Index;
use crate::meaning::{Law, Named};
use crate::pass::Pass;

impl<L: Law, N: Named> Index<L, N> {
    // The pass takes the current version's number.
    fn take_last(&self, pass: Pass<N>) -> (Pass<N>, u64)
        requires { IsHere self.now.place pass }
        ensures back { IsHere self.now.place result.0 }
        ensures gathers { (last : AllSeen) × Gathers self.now.shared.table.shared.key.passes (known_at pass.seat) (known_at result.0.seat) [] result.1 last }
    {
        let mut pass = pass;
        pass.account(self);
        let snapshot = pass.hold(self);
        let version = snapshot.seat.version;
        let mut pass = snapshot.release();
        pass.account(self);
        (pass, version)
    }

    // The first pass takes the current version's number when it has learnt what the others have seen. They learn that of it.
    fn gather(&self, first: Pass<N>, others: Vec<Pass<N>>) -> (Pass<N>, u64)
        requires first { IsHere self.now.place first }
        requires others { All (λ p. (IsSome p.seat) × (p.place ≡ self.now.place)) others.items }
        ensures back { IsHere self.now.place result.0 }
        ensures gathers { (last : AllSeen) × Gathers self.now.shared.table.shared.key.passes (known_at first.seat) (known_at result.0.seat)
            (map (λ p. known_at p.seat) others.items) result.1 last }
    {
        let mut first = first;
        let mut others = others;
        let Some(mut pass) = others.pop() else {
            return self.take_last(first);
        };
        let seen = pass.note(self);
        first.learn(self, seen);
        let (mut first, version) = self.gather(first, others);
        let last = first.note(self);
        pass.learn(self, last);
        pass.account(self);
        (first, version)
    }

    // The current version's number, by the turn.
    fn version_at_rest(self) -> u64
        ensures ends { (last : AllSeen) × Ends self.shared.table.shared.key.passes [] result last }
        ensures at_rest { IsOfTurn self.shared.table.shared.table_id result }
    {
        let Index { place, turn, .. } = self;
        let Some(turn) = turn.into_inner() else {
            return 0;
        };
        if turn.place != place {
            return 0;
        }
        turn.writer.seat.version
    }

    /// Ends the index, and tells the number of its current version: as many commits were made. It is no less than what these
    /// passes had seen, and where they are all passes of the index, all commits are theirs. With no pass it is what the turn tells, and 0
    /// where a transaction was forgotten, which has kept the turn.
    pub fn close(self, passes: Vec<Pass<N>>) -> u64
        requires here { All (λ p. (IsSome p.seat) × (p.place ≡ self.place)) passes.items }
        ensures ends { (last : AllSeen) × Ends self.shared.table.shared.key.passes (map (λ p. known_at p.seat) passes.items) result last }
        ensures at_rest { passes.items ≡ [] → IsOfTurn self.shared.table.shared.table_id result }
    {
        let mut passes = passes;
        match passes.pop() {
            Some(first) => {
                let (_first, version) = self.gather(first, passes);
                version
            }
            None => self.version_at_rest(),
        }
    }
}

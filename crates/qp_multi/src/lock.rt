//! The lock, while the turn is out of it.
ghost use Rattle.std.specs.Prelude.{◌≡◌, None, Some, true, is_some, IfSome, IfNone};
ghost use Rattle.std.specs.Sync.Mutex.{mutex_guard_value};

use crate::index::Turn;
use crate::meaning::Named;
use std::sync::MutexGuard;

/// The lock, held by who has taken the turn out of it. It can't be dropped: only `put_back` ends it, with a turn.
pub(crate) struct HeldLock<'i, N: Named> {
    guard: MutexGuard<'i, Option<Turn<N>>>,
}

/// The lock with the turn in it again. To drop it lets the lock go.
#[derive(Drop)]
pub(crate) struct ReturnedLock<'i, N: Named> {
    guard: MutexGuard<'i, Option<Turn<N>>>,
    ghost there: { is_some (mutex_guard_value guard) ≡ true },
}

impl<'i, N: Named> HeldLock<'i, N> {
    /// Takes the turn out. Where there is none, the lock is let go as it was.
    pub(crate) fn take(guard: MutexGuard<'i, Option<Turn<N>>>) -> Option<(HeldLock<'i, N>, Turn<N>)>
        ensures some { IfSome result (λ held. mutex_guard_value guard.entry ≡ Some held.1) }
        ensures none { IfNone result (mutex_guard_value guard.entry ≡ None) }
    {
        let mut guard = guard;
        match guard.take() {
            Some(turn) => Some((HeldLock { guard }, turn)),
            None => None,
        }
    }

    /// Puts a turn in its place.
    pub(crate) fn put_back(self, turn: Turn<N>) -> ReturnedLock<'i, N>
        ensures { mutex_guard_value result.guard ≡ Some turn }
    {
        let HeldLock { mut guard } = self;
        *guard = Some(turn);
        ReturnedLock { guard }
    }
}

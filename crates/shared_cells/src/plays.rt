//! What each step tells its seat, and how seats are split and joined.
ghost use Rattle.shared_cells.specs.Views.{with_new_pass, new_pass_of, note_of, pass_of, without_pass, with_pass, with_note, spent_view};
ghost use Rattle.shared_cells.specs.Steps.{looked, learnt, opened, published, accounted, entered, glanced, settled, sighted, left, read, stored};
ghost use Rattle.shared_cells.specs.Steps.{recalled, scanned, assigned};

use crate::law::{Counted, HistoryLaw, Opening, Payload};
use crate::view::View;
use atomic_table::{Join, Play, Split};
use std::marker::PhantomData;

/// The turn stores the root of version 0.
pub(crate) struct Open<M> {
    opening: PhantomData<M>,
}

impl<O, E, M: Opening<O>> Play<(), View<O, E>> for Open<M> {
    ghost then = { opened M.version M.image };
}

/// The turn stores the next version.
pub(crate) struct Publish<M> {
    payload: PhantomData<M>,
}

impl<O, E, M: Payload<E>> Play<(), View<O, E>> for Publish<M> {
    ghost then = { published M.change M.image };
}

/// The turn loads the current version's word.
pub(crate) struct Look<L> {
    law: PhantomData<L>,
}

impl<O, E, L: HistoryLaw<O, E>> Play<(), View<O, E>> for Look<L> {
    ghost then = { looked L.applied L.lawful L.permitted L.stands };
}

/// A pass loads the current version's word, after a note was joined to it.
pub(crate) struct Learn;

impl<O, E> Play<(), View<O, E>> for Learn {
    ghost then = { learnt };
}

/// A pass that is idle or pinned loads the current version's word.
pub(crate) struct Account<M> {
    count: PhantomData<M>,
}

impl<O, E, M: Counted> Play<(), View<O, E>> for Account<M> {
    ghost then = { accounted M.passes };
}

/// An idle pass loads the current version's word, and sees all that was published.
pub(crate) struct Sight<L> {
    law: PhantomData<L>,
}

impl<O, E, L: HistoryLaw<O, E>> Play<(), View<O, E>> for Sight<L> {
    ghost then = { sighted L.applied L.lawful L.permitted L.stands };
}

/// A pass stores that it is about to look.
pub(crate) struct Enter;

impl<O, E> Play<(), View<O, E>> for Enter {
    ghost then = { entered };
}

/// A pass that has entered loads the current version's word.
pub(crate) struct Glance;

impl<O, E> Play<(), View<O, E>> for Glance {
    ghost then = { glanced };
}

/// A pass that has looked exchanges its pin, if the turn has not done so.
pub(crate) struct Settle<L> {
    law: PhantomData<L>,
}

impl<O, E, L: HistoryLaw<O, E>> Play<(), View<O, E>> for Settle<L> {
    ghost then = { settled L.applied L.lawful L.permitted L.stands };
}

/// A pinned pass stores that it is idle.
pub(crate) struct Leave;

impl<O, E> Play<(), View<O, E>> for Leave {
    ghost then = { left };
}

/// A pinned pass loads a word.
pub(crate) struct Read;

impl<O, E> Play<(), View<O, E>> for Read {
    ghost then = { read };
}

/// The turn stores a word past the pins.
pub(crate) struct Store;

impl<O, E> Play<(), View<O, E>> for Store {
    ghost then = { stored };
}

/// The turn loads a word past the pins.
pub(crate) struct Recall;

impl<O, E> Play<(), View<O, E>> for Recall {
    ghost then = { recalled };
}

/// The turn loads a pin, and marks its pass.
pub(crate) struct Scan;

impl<O, E> Play<(), View<O, E>> for Scan {
    ghost then = { scanned };
}

/// The turn exchanges the pin of a pass that is about to look, and marks the pass.
pub(crate) struct Assign;

impl<O, E> Play<(), View<O, E>> for Assign {
    ghost then = { assigned };
}

/// The pass of the next number is made.
pub(crate) struct NewPass;

impl<O, E> Split<View<O, E>> for NewPass {
    ghost left = { with_new_pass };

    ghost right = { new_pass_of };
}

/// The joined pass is given back.
pub(crate) struct Dismiss;

impl<O, E> Split<View<O, E>> for Dismiss {
    ghost left = { without_pass };

    ghost right = { pass_of };
}

/// A note is made.
pub(crate) struct Tell;

impl<O, E> Split<View<O, E>> for Tell {
    ghost left = { λ v. v };

    ghost right = { note_of };
}

/// A pass is joined to the turn.
pub(crate) struct Enlist;

impl<O, E> Join<View<O, E>> for Enlist {
    ghost both = { with_pass };

    ghost spent = { spent_view };
}

/// A note is joined to a pass.
pub(crate) struct Hear;

impl<O, E> Join<View<O, E>> for Hear {
    ghost both = { with_note };

    ghost spent = { spent_view };
}

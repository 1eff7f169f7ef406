//! A pass that is pinned at a version, which it reads whatever is published and freed meanwhile.
ghost use Rattle.std.specs.Prelude.{◌≡◌, ◌+◌, ◌-◌, ◌*◌, ◌%◌, ◌^◌, ◌<◌, ◌≤◌, All, true, false, []};
ghost use Rattle.std.proofs.Props.{props};
ghost use Rattle.shared_cells.specs.Prelude.{words_for, number_of, has_turn, is_told, is_idle, is_pinned, pinned_version, pinned_root};
ghost use Rattle.shared_cells.specs.Prelude.{pinned_image, chunks_of, root_of, with_progress, note_of, IsWordOf, Pins, Settles};
ghost use Rattle.shared_cells.specs.Prelude.{IsPass, LooksBeside, SeesUpTo};
ghost use Rattle.shared_cells.specs.declared.view.Progress.TheVariants as progress;

use crate::law::{Counted, HistoryLaw};
use crate::pass::{PassSeat, SeatNote};
use crate::plays::{Account, Enter, Glance, Hear, Leave, Read, Settle, Tell};
use crate::shared::Shared;
use crate::view::Place;
use pin_core::words::{
    CUR, ENTERING, FIRST_PIN, IDLE, NO_ROOT, PIN_OFFSET, ROOTS, pin_after_exchange, version_of_pin,
};

/// A pass's seat, while the pass is pinned. No cell of its version is written, and no chunk of it freed, before `unpin`.
///
/// It can't be dropped, nor taken apart elsewhere: whoever has one unpins it, so no version stays kept for nobody.
pub struct PinnedSeat<O, E> {
    place: Place<O, E>,
    /// The pass's number.
    pub number: u32,
    /// The version that is pinned.
    pub version: u64,
    /// That version's root; none where it is empty.
    pub root: Option<u32>,
    ghost is_pass: { number_of place.me.0.pass ≡ number + 1 },
    ghost no_turn: { has_turn place.me.0.turn ≡ false },
    ghost told: { is_told place.me.0.seen.opening ≡ true },
    ghost pinned: { is_pinned place.me.0.progress ≡ true },
    ghost version_is: { version ≡ pinned_version place.me.0.progress },
    ghost root_is: { root ≡ pinned_root place.me.0.progress } by { Prim.hlevel props },
    ghost inside: { All (λ c. c.at < 1024 * chunks_of place.me.0.pass) (pinned_image place.me.0.progress) },
    ghost few: { number < 64 },
    ghost wide: { words_for (chunks_of place.me.0.pass) ≡ place.table_id.words },
    ghost no_slots: { place.me.1 ≡ [] },
}

impl<O, E> PassSeat<O, E> {
    /// Pins a version that is current at some moment of the call, in three steps, whatever the turn does meanwhile: the
    /// pass enters, looks and settles.
    pub fn pin<L: HistoryLaw<O, E>>(self, shared: &Shared<O, E, L>) -> PinnedSeat<O, E>
        requires { self.place.table_id ≡ shared.now.table.shared.table_id }
        ensures table { result.place.table_id ≡ self.place.table_id }
        ensures number { result.number ≡ self.number }
        ensures seen { SeesUpTo result.version self.place.me.0 result.place.me.0 }
        ensures pinned { Pins L.applied L.lawful L.permitted L.stands self.place.me.0 result.place.me.0 }
    {
        let PassSeat { mut place, number } = self;
        let pin = take_pin(shared, &mut place, number);
        PinnedSeat {
            place,
            number,
            version: version_of_pin(pin),
            root: root_of_pin(pin),
        }
    }
}

impl<O, E> PinnedSeat<O, E> {
    /// The pass is idle again. What it has seen and pinned stays known.
    pub fn unpin<L: HistoryLaw<O, E>>(self, shared: &Shared<O, E, L>) -> PassSeat<O, E>
        requires { self.place.table_id ≡ shared.now.table.shared.table_id }
        ensures table { result.place.table_id ≡ self.place.table_id }
        ensures number { result.number ≡ self.number }
        ensures left { result.place.me.0 ≡ with_progress self.place.me.0 progress.Idle }
    {
        let PinnedSeat {
            mut place,
            number,
            version: _,
            root: _,
        } = self;
        leave(shared, &mut place, number);
        PassSeat { place, number }
    }

    /// A word of the table. If it is one of a cell of the pinned version, it is as it was published.
    pub fn read<L: HistoryLaw<O, E>>(&mut self, shared: &Shared<O, E, L>, word: usize) -> u64
        requires table { self.old.place.table_id ≡ shared.now.table.shared.table_id }
        requires inside { word < shared.now.table.shared.table_id.words }
        ensures same { self.new ≡ self.old }
        ensures says { All (IsWordOf word result) (pinned_image self.old.place.me.0.progress) }
    {
        shared.table.shared.load::<Read>(&mut self.place, word)
    }

    /// A note of what this pass has seen, its version among it.
    pub fn note<L: HistoryLaw<O, E>>(&mut self, shared: &Shared<O, E, L>) -> SeatNote<O, E>
        requires { self.old.place.table_id ≡ shared.now.table.shared.table_id }
        ensures table { (self.new.place.table_id ≡ self.old.place.table_id) × (result.place.table_id ≡ self.old.place.table_id) }
        ensures same { (self.new.place.me.0 ≡ self.old.place.me.0) × (self.new.number ≡ self.old.number) }
        ensures note { result.place.me.0 ≡ note_of self.old.place.me.0 }
    {
        let place = shared.table.shared.split_seat::<Tell>(&mut self.place);
        SeatNote { place }
    }

    /// Looks at the current version's word, which tells what the rule knows of this pass, beside what the note tells. That isn't learnt:
    /// the pass is still pinned at its version, and has seen no more.
    pub fn look_beside<L: HistoryLaw<O, E>, M: Counted>(
        &mut self,
        shared: &Shared<O, E, L>,
        note: SeatNote<O, E>,
    )
        requires table { (self.old.place.table_id ≡ shared.now.table.shared.table_id) × (note.place.table_id ≡ shared.now.table.shared.table_id) }
        requires passes { M.passes ≡ shared.now.table.shared.key.passes }
        ensures table { self.new.place.table_id ≡ self.old.place.table_id }
        ensures same { (self.new.number ≡ self.old.number) × (self.new.version ≡ self.old.version) × (self.new.root ≡ self.old.root) }
        ensures looked { LooksBeside M.passes self.old.place.me.0 self.new.place.me.0 note.place.me.0 }
    {
        let SeatNote { place: told } = note;
        shared.table.shared.join_seat::<Hear>(&mut self.place, told);
        shared.table.shared.load::<Account<M>>(&mut self.place, CUR);
    }
}

/// Enters, looks and settles. The answer is the pin.
///
/// The pass says that it enters before it loads the current version, and who publishes stores that before it looks at passes: so one of both
/// sees the other. Were the version loaded first, it could be dropped before the pin stands.
fn take_pin<O, E, L: HistoryLaw<O, E>>(
    shared: &Shared<O, E, L>,
    place: &mut Place<O, E>,
    number: u32,
) -> u64
    requires table { place.old.table_id ≡ shared.now.table.shared.table_id }
    requires pass { IsPass number place.old.me.0 }
    requires idle { is_idle place.old.me.0.progress ≡ true }
    ensures table { (place.new.table_id ≡ place.old.table_id) × (place.new.me.1 ≡ place.old.me.1) }
    ensures settled { Settles L.applied L.lawful L.permitted L.stands place.old.me.0 result place.new.me.0 }
{
    let at = FIRST_PIN + number as usize;
    shared.table.shared.store::<Enter>(place, at, ENTERING);
    let word = shared.table.shared.load::<Glance>(place, CUR);
    let found = shared
        .table
        .shared
        .compare_exchange::<Settle<L>>(place, at, ENTERING, word + PIN_OFFSET);
    pin_after_exchange(found, word)
}

/// A pinned pass is idle again.
fn leave<O, E, L: HistoryLaw<O, E>>(shared: &Shared<O, E, L>, place: &mut Place<O, E>, number: u32)
    requires table { place.old.table_id ≡ shared.now.table.shared.table_id }
    requires pass { IsPass number place.old.me.0 }
    requires pinned { is_pinned place.old.me.0.progress ≡ true }
    ensures table { place.new.table_id ≡ place.old.table_id }
    ensures left { place.new.me ≡ (with_progress place.old.me.0 progress.Idle, place.old.me.1) }
{
    let at = FIRST_PIN + number as usize;
    shared.table.shared.store::<Leave>(place, at, IDLE);
}

/// The root that a pin names.
fn root_of_pin(pin: u64) -> Option<u32>
    requires { 2 ≤ pin }
    ensures { result ≡ root_of ((pin - 2) % 2 ^ 24) }
{
    let number = (pin - PIN_OFFSET) % ROOTS;
    if number == NO_ROOT {
        None
    } else {
        Some(number as u32)
    }
}

//! The seats of passes, and the notes by which one tells another what it has seen.
ghost use Rattle.std.specs.Prelude.{◌≡◌, ℕ, ◌+◌, ◌<◌, true, false, []};
ghost use Rattle.shared_cells.specs.Prelude.{words_for, number_of, has_turn, is_told, is_idle, chunks_of, with_note, note_of};
ghost use Rattle.shared_cells.specs.Prelude.{Learns, Accounts, LooksBeside, SeesCurrent, SeesUpTo};

use crate::law::{Counted, HistoryLaw};
use crate::plays::{Account, Hear, Learn, Sight, Tell};
use crate::shared::Shared;
use crate::view::Place;
use pin_core::words::{CUR, PIN_OFFSET, version_of_pin};

/// What a seat had seen, for a pass to learn. It may go to another thread.
#[derive(Drop)]
pub struct SeatNote<O, E> {
    pub place: Place<O, E>,
    ghost no_turn: { has_turn place.me.0.turn ≡ false },
    ghost told: { is_told place.me.0.seen.opening ≡ true },
    ghost no_slots: { place.me.1 ≡ [] },
}

/// A pass's seat, before the pass has learnt of the opening.
#[derive(Drop)]
pub struct NewPassSeat<O, E> {
    pub place: Place<O, E>,
    pub number: u32,
    ghost is_pass: { number_of place.me.0.pass ≡ number + 1 },
    ghost no_turn: { has_turn place.me.0.turn ≡ false },
    ghost idle: { is_idle place.me.0.progress ≡ true },
    ghost few: { number < 64 },
    ghost wide: { words_for (chunks_of place.me.0.pass) ≡ place.table_id.words },
    ghost no_slots: { place.me.1 ≡ [] },
}

/// A pass's seat. The pass is idle, and knows of the opening.
#[derive(Drop)]
pub struct PassSeat<O, E> {
    pub place: Place<O, E>,
    /// The pass's number, from 0: its entries of the history have it as their author.
    pub number: u32,
    ghost is_pass: { number_of place.me.0.pass ≡ number + 1 },
    ghost no_turn: { has_turn place.me.0.turn ≡ false },
    ghost told: { is_told place.me.0.seen.opening ≡ true },
    ghost idle: { is_idle place.me.0.progress ≡ true },
    ghost few: { number < 64 },
    ghost wide: { words_for (chunks_of place.me.0.pass) ≡ place.table_id.words },
    ghost no_slots: { place.me.1 ≡ [] },
}

impl<O, E> NewPassSeat<O, E> {
    /// Learns of the opening, and all else that the note tells.
    pub fn learn<L: HistoryLaw<O, E>>(
        self,
        shared: &Shared<O, E, L>,
        note: SeatNote<O, E>,
    ) -> PassSeat<O, E>
        requires { (self.place.table_id ≡ shared.now.table.shared.table_id) × (note.place.table_id ≡ shared.now.table.shared.table_id) }
        ensures table { result.place.table_id ≡ self.place.table_id }
        ensures number { result.number ≡ self.number }
        ensures learnt { Learns (with_note self.place.me.0 note.place.me.0) result.place.me.0 }
    {
        let NewPassSeat { mut place, number } = self;
        hear(shared, &mut place, note);
        PassSeat { place, number }
    }
}

impl<O, E> PassSeat<O, E> {
    /// A note of what this pass has seen.
    pub fn note<L: HistoryLaw<O, E>>(&mut self, shared: &Shared<O, E, L>) -> SeatNote<O, E>
        requires { self.old.place.table_id ≡ shared.now.table.shared.table_id }
        ensures table { (self.new.place.table_id ≡ self.old.place.table_id) × (result.place.table_id ≡ self.old.place.table_id) }
        ensures same { (self.new.place.me.0 ≡ self.old.place.me.0) × (self.new.number ≡ self.old.number) }
        ensures note { result.place.me.0 ≡ note_of self.old.place.me.0 }
    {
        let place = shared.table.shared.split_seat::<Tell>(&mut self.place);
        SeatNote { place }
    }

    /// Learns what the note tells. From then on the pass sees no less.
    pub fn learn<L: HistoryLaw<O, E>>(&mut self, shared: &Shared<O, E, L>, note: SeatNote<O, E>)
        requires { (self.old.place.table_id ≡ shared.now.table.shared.table_id) × (note.place.table_id ≡ shared.now.table.shared.table_id) }
        ensures table { self.new.place.table_id ≡ self.old.place.table_id }
        ensures number { self.new.number ≡ self.old.number }
        ensures learnt { Learns (with_note self.old.place.me.0 note.place.me.0) self.new.place.me.0 }
    {
        hear(shared, &mut self.place, note);
    }

    /// Sees which version is current at some moment of the call, and what was published before it. It pins none.
    #[inline]
    pub fn see<L: HistoryLaw<O, E>>(&mut self, shared: &Shared<O, E, L>) -> u64
        requires table { self.old.place.table_id ≡ shared.now.table.shared.table_id }
        ensures table { self.new.place.table_id ≡ self.old.place.table_id }
        ensures number { self.new.number ≡ self.old.number }
        ensures seen { SeesUpTo result self.old.place.me.0 self.new.place.me.0 }
        ensures sees { SeesCurrent L.applied L.lawful L.permitted L.stands self.old.place.me.0 self.new.place.me.0 }
    {
        let word = shared.table.shared.load::<Sight<L>>(&mut self.place, CUR);
        version_of_pin(word + PIN_OFFSET)
    }

    /// Looks at the current version's word, which tells what the rule knows of this pass.
    pub fn look<L: HistoryLaw<O, E>, M: Counted>(&mut self, shared: &Shared<O, E, L>)
        requires table { self.old.place.table_id ≡ shared.now.table.shared.table_id }
        requires passes { M.passes ≡ shared.now.table.shared.key.passes }
        ensures table { self.new.place.table_id ≡ self.old.place.table_id }
        ensures same { (self.new.place.me.0 ≡ self.old.place.me.0) × (self.new.number ≡ self.old.number) }
        ensures accounted { (all : _) × Accounts M.passes self.old.place.me.0 all }
    {
        shared.table.shared.load::<Account<M>>(&mut self.place, CUR);
    }

    /// The same beside what the note tells, which isn't learnt.
    pub fn look_beside<L: HistoryLaw<O, E>, M: Counted>(
        &mut self,
        shared: &Shared<O, E, L>,
        note: SeatNote<O, E>,
    )
        requires table { (self.old.place.table_id ≡ shared.now.table.shared.table_id) × (note.place.table_id ≡ shared.now.table.shared.table_id) }
        requires passes { M.passes ≡ shared.now.table.shared.key.passes }
        ensures table { self.new.place.table_id ≡ self.old.place.table_id }
        ensures number { self.new.number ≡ self.old.number }
        ensures looked { LooksBeside M.passes self.old.place.me.0 self.new.place.me.0 note.place.me.0 }
    {
        let SeatNote { place: told } = note;
        shared.table.shared.join_seat::<Hear>(&mut self.place, told);
        shared.table.shared.load::<Account<M>>(&mut self.place, CUR);
    }
}

/// Joins the note to the pass, and looks, which tells that what both have seen are beginnings of one history.
fn hear<O, E, L: HistoryLaw<O, E>>(
    shared: &Shared<O, E, L>,
    place: &mut Place<O, E>,
    note: SeatNote<O, E>,
)
    requires table { (place.old.table_id ≡ shared.now.table.shared.table_id) × (note.place.table_id ≡ shared.now.table.shared.table_id) }
    requires pass { (number : ℕ) × (number_of place.old.me.0.pass ≡ number + 1) }
    requires idle { (has_turn place.old.me.0.turn ≡ false) × (is_idle place.old.me.0.progress ≡ true) }
    ensures table { (place.new.table_id ≡ place.old.table_id) × (place.new.me.1 ≡ place.old.me.1) }
    ensures learnt { Learns (with_note place.old.me.0 note.place.me.0) place.new.me.0 }
{
    let SeatNote { place: told } = note;
    shared.table.shared.join_seat::<Hear>(place, told);
    shared.table.shared.load::<Learn>(place, CUR);
}

//! The seat that has the turn: the one by which versions are made.
ghost use Rattle.std.specs.Prelude.{◌≡◌, ◌+◌, ◌<◌, ◌≤◌, length, replicate, true, false, []};
ghost use Rattle.shared_cells.specs.Prelude.{words_for, number_of, marks_of, words_of, has_turn, is_told, chunks_of, note_of};
ghost use Rattle.shared_cells.specs.Prelude.{pass_of, without_pass, with_pass, CanOpen, Opened, CanPublish, Published, Confirms};
ghost use Rattle.pin_core.specs.declared.kept.Mark.TheVariants as mark;

use crate::law::{HistoryLaw, Opening, Payload};
use crate::pass::{PassSeat, SeatNote};
use crate::plays::{Dismiss, Enlist, Look, Open, Publish, Tell};
use crate::shared::Shared;
use crate::view::Place;
use pin_core::words::{CUR, word_of_version};

/// The turn's seat, before the index is open.
#[derive(Drop)]
pub struct NewTurnSeat<O, E> {
    pub place: Place<O, E>,
    /// How many passes the index has.
    pub passes: u32,
    ghost turn: { has_turn place.me.0.turn ≡ true },
    ghost alone: { number_of place.me.0.pass ≡ 0 },
    ghost untold: { is_told place.me.0.seen.opening ≡ false },
    ghost nothing_seen: { length place.me.0.seen.history ≡ 0 },
    ghost round: { (1 ≤ passes) × (passes ≤ 64) },
    ghost blank: { marks_of place.me.0.turn ≡ replicate passes mark.Blank },
    ghost copied: { length (words_of place.me.0.turn) ≡ place.table_id.words },
    ghost no_slots: { place.me.1 ≡ [] },
}

/// The turn's seat, with no pass joined to it.
#[derive(Drop)]
pub struct TurnSeat<O, E> {
    pub place: Place<O, E>,
    /// The current version.
    pub version: u64,
    /// How many passes the index has.
    pub passes: u32,
    ghost turn: { has_turn place.me.0.turn ≡ true },
    ghost alone: { number_of place.me.0.pass ≡ 0 },
    ghost told: { is_told place.me.0.seen.opening ≡ true },
    ghost version_is: { version ≡ length place.me.0.seen.history },
    ghost round: { (1 ≤ passes) × (passes ≤ 64) },
    ghost blank: { marks_of place.me.0.turn ≡ replicate passes mark.Blank },
    ghost copied: { length (words_of place.me.0.turn) ≡ place.table_id.words },
    ghost no_slots: { place.me.1 ≡ [] },
}

/// The turn's seat, with a pass joined to it for a transaction.
#[derive(Drop)]
pub struct JoinedSeat<O, E> {
    pub place: Place<O, E>,
    /// The current version.
    pub version: u64,
    /// How many passes the index has.
    pub passes: u32,
    /// The joined pass's number.
    pub number: u32,
    ghost turn: { has_turn place.me.0.turn ≡ true },
    ghost is_pass: { number_of place.me.0.pass ≡ number + 1 },
    ghost told: { is_told place.me.0.seen.opening ≡ true },
    ghost version_is: { version ≡ length place.me.0.seen.history },
    ghost few: { number < 64 },
    ghost wide: { words_for (chunks_of place.me.0.pass) ≡ place.table_id.words },
    ghost round: { (1 ≤ passes) × (passes ≤ 64) },
    ghost blank: { marks_of place.me.0.turn ≡ replicate passes mark.Blank },
    ghost copied: { length (words_of place.me.0.turn) ≡ place.table_id.words },
    ghost no_slots: { place.me.1 ≡ [] },
}

impl<O, E> NewTurnSeat<O, E> {
    /// Opens the index with its version 0.
    pub fn open<L: HistoryLaw<O, E>, M: Opening<O>>(
        self,
        shared: &Shared<O, E, L>,
        root: Option<u32>,
    ) -> TurnSeat<O, E>
        requires table { self.place.table_id ≡ shared.now.table.shared.table_id }
        requires can { CanOpen L.applied L.lawful L.permitted L.stands shared.now.table.shared.key self.place.me.0 M.version root M.image }
        ensures table { result.place.table_id ≡ self.place.table_id }
        ensures opened { Opened self.place.me.0 M.version root M.image result.place.me.0 }
        ensures passes { result.passes ≡ self.passes }
    {
        let NewTurnSeat { mut place, passes } = self;
        let word = word_of_version(0, root);
        shared.table.shared.store::<Open<M>>(&mut place, CUR, word);
        TurnSeat {
            place,
            version: 0,
            passes,
        }
    }
}

impl<O, E> TurnSeat<O, E> {
    /// A note of all that was published.
    pub fn note<L: HistoryLaw<O, E>>(&mut self, shared: &Shared<O, E, L>) -> SeatNote<O, E>
        requires { self.old.place.table_id ≡ shared.now.table.shared.table_id }
        ensures table { (self.new.place.table_id ≡ self.old.place.table_id) × (result.place.table_id ≡ self.old.place.table_id) }
        ensures same { (self.new.place.me.0 ≡ self.old.place.me.0) × (self.new.version ≡ self.old.version) × (self.new.passes ≡ self.old.passes) }
        ensures note { result.place.me.0 ≡ note_of self.old.place.me.0 }
    {
        let place = shared.table.shared.split_seat::<Tell>(&mut self.place);
        SeatNote { place }
    }

    /// Joins a pass for a transaction. What the pass had seen is told by the next look.
    pub fn join<L: HistoryLaw<O, E>>(
        self,
        shared: &Shared<O, E, L>,
        pass: PassSeat<O, E>,
    ) -> JoinedSeat<O, E>
        requires { (self.place.table_id ≡ shared.now.table.shared.table_id) × (pass.place.table_id ≡ shared.now.table.shared.table_id) }
        ensures table { result.place.table_id ≡ self.place.table_id }
        ensures joined { result.place.me.0 ≡ with_pass self.place.me.0 pass.place.me.0 }
        ensures numbers { (result.version ≡ self.version) × (result.passes ≡ self.passes) × (result.number ≡ pass.number) }
    {
        let TurnSeat {
            mut place,
            version,
            passes,
        } = self;
        let PassSeat {
            place: other,
            number,
        } = pass;
        shared.table.shared.join_seat::<Enlist>(&mut place, other);
        JoinedSeat {
            place,
            version,
            passes,
            number,
        }
    }
}

impl<O, E> JoinedSeat<O, E> {
    /// Looks at the current version's word, which tells all that the rule knows of this seat.
    pub fn look<L: HistoryLaw<O, E>>(&mut self, shared: &Shared<O, E, L>) -> u64
        requires { self.old.place.table_id ≡ shared.now.table.shared.table_id }
        ensures table { self.new.place.table_id ≡ self.old.place.table_id }
        ensures same { (self.new.place.me.0 ≡ self.old.place.me.0) × (self.new.version ≡ self.old.version) × (self.new.number ≡ self.old.number)
            × (self.new.passes ≡ self.old.passes) }
        ensures confirmed { Confirms L.applied L.lawful L.permitted L.stands self.old.place.me.0 result }
    {
        shared.table.shared.load::<Look<L>>(&mut self.place, CUR)
    }

    /// Publishes the next version, as the joined pass's own step. Answers its number.
    pub fn publish<L: HistoryLaw<O, E>, M: Payload<E>>(
        &mut self,
        shared: &Shared<O, E, L>,
        root: Option<u32>,
    ) -> u64
        requires table { self.old.place.table_id ≡ shared.now.table.shared.table_id }
        requires can { CanPublish L.applied L.lawful L.permitted L.stands shared.now.table.shared.key self.old.place.me.0 M.change root M.image }
        ensures same { (self.new.place.table_id ≡ self.old.place.table_id) × (self.new.number ≡ self.old.number) × (self.new.passes ≡ self.old.passes) }
        ensures version { result ≡ self.old.version + 1 }
        ensures published { Published self.old.place.me.0 M.change root M.image self.new.place.me.0 }
    {
        let version = self.version + 1;
        let word = word_of_version(version, root);
        shared
            .table
            .shared
            .store::<Publish<M>>(&mut self.place, CUR, word);
        self.version = version;
        version
    }

    /// The pass is given back. It has seen all that was published.
    pub fn split<L: HistoryLaw<O, E>>(
        self,
        shared: &Shared<O, E, L>,
    ) -> (TurnSeat<O, E>, PassSeat<O, E>)
        requires { self.place.table_id ≡ shared.now.table.shared.table_id }
        ensures tables { (result.0.place.table_id ≡ self.place.table_id) × (result.1.place.table_id ≡ self.place.table_id) }
        ensures turn { (result.0.place.me.0 ≡ without_pass self.place.me.0) × (result.0.version ≡ self.version) × (result.0.passes ≡ self.passes) }
        ensures pass { (result.1.place.me.0 ≡ pass_of self.place.me.0) × (result.1.number ≡ self.number) }
    {
        let JoinedSeat {
            mut place,
            version,
            passes,
            number,
        } = self;
        let other = shared.table.shared.split_seat::<Dismiss>(&mut place);
        let pass = PassSeat {
            place: other,
            number,
        };
        let turn = TurnSeat {
            place,
            version,
            passes,
        };
        (turn, pass)
    }
}

//! The cells that the turn may write, as the trie's crates know cells.
//!
//! A crate that is generic over cells says of them what they have, which chunks are given and what is kept, and nothing of the
//! seat behind them. So the rest of what the seat knew is in the type of the cells: `Lent` names it.
ghost use Rattle.std.specs.Prelude.{◌≡◌, ◌<◌, true, slice_index};
ghost use Rattle.shared_cells.specs.Prelude.{half_at, status_at, words_for, has_turn, MayFree, MayWrite};
ghost use Rattle.shared_cells.specs.Prelude.{words_of, kept_in, stored_view, cells_of, with_words, IsNewTurn, IsJoined};

use crate::copying::copy_words;
use crate::law::HistoryLaw;
use crate::plays::{Recall, Store};
use crate::shared::Shared;
use crate::turn::{JoinedSeat, NewTurnSeat};
use crate::view::Place;
use chunk_cells::{CellRead, CellWrite};
use packed_node::{Cell, Ref};
use pin_core::Half;
use pin_core::words::{FIRST_STATUS, FREE, GIVEN, place_of_half};
use std::marker::{Brand, Model, PhantomData};

/// What the turn's seat knew when its cells were lent, and of which table it is. The call that works on the cells picks it.
pub trait Lent<O, E> {
    ghost use Rattle.atomic_table.specs.Seated.{TableId};
    ghost use Rattle.shared_cells.specs.declared.view.View.{View};

    ghost table: { TableId };

    ghost view: { View O E };
}

impl<O, E> Lent<O, E> for Brand {
    ghost use Rattle.std.specs.Prelude.{[]};
    ghost use Rattle.shared_cells.specs.History.{nothing_seen};
    ghost use Rattle.shared_cells.specs.Views.{view_of};

    ghost table = { record { words = 0; slots = 0; views_name = 0; atom = 0; block = 0; offset = 0; slot_names = [] } };

    ghost view = { view_of nothing_seen };
}

/// The cells of the table as the turn knows and writes them. Contracts see how many chunks there are, the words, and the
/// kept versions.
///
/// They are lent by a seat, and given back as the seat that it was, with the words that were written.
#[derive(Drop)]
pub struct TurnCells<'a, O, E, L: HistoryLaw<O, E>, B: Lent<O, E>> {
    shared: &'a Shared<O, E, L>,
    place: Place<O, E>,
    /// The current version.
    version: u64,
    /// The joined pass's number, if one is joined.
    number: u32,
    /// How many passes the index has.
    passes: u32,
    lent: PhantomData<B>,
}

impl<'a, O, E, L: HistoryLaw<O, E>, B: Lent<O, E>> Model for TurnCells<'a, O, E, L, B> {
    ghost use Rattle.std.specs.Prelude.{◌≡◌};
    ghost use Rattle.shared_cells.specs.Cells.{Cells};

    ghost Value = { Cells };

    ghost use Rattle.shared_cells.specs.Cells.{cells_of, IsLent};

    ghost view = { λ s. cells_of s.shared.now.table.shared.key.chunks s.place.me.0.turn };

    ghost invariant = { λ s. IsLent B.table B.view s.place.table_id s.place.me s.version s.number s.passes
        × (s.shared.now.table.shared.table_id ≡ B.table) };
}

impl<O, E, L: HistoryLaw<O, E>, B: Lent<O, E>> CellRead for TurnCells<'_, O, E, L, B> {
    ghost use Rattle.shared_cells.specs.Cells.{HasCell};

    ghost has = { HasCell };

    fn cell(&mut self, at: Ref) -> Cell {
        let shared = self.shared;
        let word = place_of_half(at, Half::Big);
        Cell {
            big: recall(shared, &mut self.place, word),
            small: recall(shared, &mut self.place, word + 1),
        }
    }
}

impl<O, E, L: HistoryLaw<O, E>, B: Lent<O, E>> CellWrite for TurnCells<'_, O, E, L, B> {
    ghost use Rattle.shared_cells.specs.Cells.{given_chunks, kept_references};

    ghost given = { given_chunks };

    ghost kept = { kept_references };

    fn put(&mut self, at: Ref, cell: Cell) {
        let shared = self.shared;
        write_half(shared, &mut self.place, at, Half::Big, cell.big);
        write_half(shared, &mut self.place, at, Half::Small, cell.small);
    }

    fn copy_row(&mut self, from: Ref, to: Ref, n: u32) {
        let shared = self.shared;
        let source = place_of_half(from, Half::Big);
        let target = place_of_half(to, Half::Big);
        copy_words(shared, &mut self.place, source, target, n as usize);
    }

    fn give(&mut self, chunk: u32) {
        let shared = self.shared;
        mark_given(shared, &mut self.place, chunk);
    }

    fn free(&mut self, chunk: u32) {
        let shared = self.shared;
        mark_free(shared, &mut self.place, chunk);
    }
}

impl<O, E> NewTurnSeat<O, E> {
    /// Lends the cells, so that version 0 can be written before it is opened.
    pub fn lend<L: HistoryLaw<O, E>, B: Lent<O, E>>(
        self,
        shared: &Shared<O, E, L>,
    ) -> TurnCells<'_, O, E, L, B>
        requires table { self.place.table_id ≡ shared.now.table.shared.table_id }
        requires lent { (self.place.table_id ≡ B.table) × (self.place.me.0 ≡ B.view) }
        ensures cells { result ≡ cells_of shared.now.table.shared.key.chunks B.view.turn }
        ensures kind { IsNewTurn B.view }
    {
        let NewTurnSeat { place, passes } = self;
        TurnCells {
            shared,
            place,
            version: 0,
            number: 0,
            passes,
            lent: PhantomData,
        }
    }
}

impl<O, E> JoinedSeat<O, E> {
    /// Lends the cells.
    pub fn lend<L: HistoryLaw<O, E>, B: Lent<O, E>>(
        self,
        shared: &Shared<O, E, L>,
    ) -> TurnCells<'_, O, E, L, B>
        requires table { self.place.table_id ≡ shared.now.table.shared.table_id }
        requires lent { (self.place.table_id ≡ B.table) × (self.place.me.0 ≡ B.view) }
        ensures cells { result ≡ cells_of shared.now.table.shared.key.chunks B.view.turn }
        ensures kind { IsJoined B.view }
    {
        let JoinedSeat {
            place,
            version,
            passes,
            number,
        } = self;
        TurnCells {
            shared,
            place,
            version,
            number,
            passes,
            lent: PhantomData,
        }
    }
}

impl<O, E, L: HistoryLaw<O, E>, B: Lent<O, E>> TurnCells<'_, O, E, L, B> {
    /// The seat that lent the cells.
    pub fn into_new(self) -> NewTurnSeat<O, E>
        requires { IsNewTurn B.view }
        ensures table { result.place.table_id ≡ B.table }
        ensures size { words_for self.entry.chunks ≡ B.table.words }
        ensures seat { result.place.me.0 ≡ with_words B.view self.entry.words }
        ensures cells { cells_of self.entry.chunks result.place.me.0.turn ≡ record self.entry { kept = kept_in B.view.turn } }
    {
        let TurnCells {
            shared: _,
            place,
            version: _,
            number: _,
            passes,
            lent: _,
        } = self;
        NewTurnSeat { place, passes }
    }

    /// The seat that lent the cells.
    pub fn into_joined(self) -> JoinedSeat<O, E>
        requires { IsJoined B.view }
        ensures table { result.place.table_id ≡ B.table }
        ensures size { words_for self.entry.chunks ≡ B.table.words }
        ensures seat { result.place.me.0 ≡ with_words B.view self.entry.words }
        ensures cells { cells_of self.entry.chunks result.place.me.0.turn ≡ record self.entry { kept = kept_in B.view.turn } }
    {
        let TurnCells {
            shared: _,
            place,
            version,
            number,
            passes,
            lent: _,
        } = self;
        JoinedSeat {
            place,
            version,
            passes,
            number,
        }
    }
}

/// A word past the pins, which is as the turn knows it.
fn recall<O, E, L: HistoryLaw<O, E>>(
    shared: &Shared<O, E, L>,
    place: &mut Place<O, E>,
    word: usize,
) -> u64
    requires table { place.old.table_id ≡ shared.now.table.shared.table_id }
    requires turn { has_turn place.old.me.0.turn ≡ true }
    requires inside { (64 < word) × (word < shared.now.table.shared.table_id.words) }
    ensures same { (place.new.table_id ≡ place.old.table_id) × (place.new.me ≡ place.old.me) }
    ensures value { result ≡ slice_index (words_of place.old.me.0.turn) word }
{
    shared.table.shared.load::<Recall>(place, word)
}

/// Writes a word of a cell that is in no kept image.
fn write_half<O, E, L: HistoryLaw<O, E>>(
    shared: &Shared<O, E, L>,
    place: &mut Place<O, E>,
    at: Ref,
    half: Half,
    value: u64,
)
    requires table { place.old.table_id ≡ shared.now.table.shared.table_id }
    requires may { MayWrite shared.now.table.shared.key.chunks place.old.me.0.turn at }
    ensures table { place.new.table_id ≡ place.old.table_id }
    ensures stored { place.new.me ≡ (stored_view place.old.me.0 (half_at at half) value, place.old.me.1) }
{
    let word = place_of_half(at, half);
    shared.table.shared.store::<Store>(place, word, value);
}

/// Stores that a chunk is given.
fn mark_given<O, E, L: HistoryLaw<O, E>>(
    shared: &Shared<O, E, L>,
    place: &mut Place<O, E>,
    chunk: u32,
)
    requires table { place.old.table_id ≡ shared.now.table.shared.table_id }
    requires turn { has_turn place.old.me.0.turn ≡ true }
    requires inside { chunk < shared.now.table.shared.key.chunks }
    ensures table { place.new.table_id ≡ place.old.table_id }
    ensures stored { place.new.me ≡ (stored_view place.old.me.0 (status_at chunk) 1, place.old.me.1) }
{
    let word = FIRST_STATUS + chunk as usize;
    shared.table.shared.store::<Store>(place, word, GIVEN);
}

/// Stores that a chunk is free, which no kept image meets.
fn mark_free<O, E, L: HistoryLaw<O, E>>(
    shared: &Shared<O, E, L>,
    place: &mut Place<O, E>,
    chunk: u32,
)
    requires table { place.old.table_id ≡ shared.now.table.shared.table_id }
    requires may { MayFree shared.now.table.shared.key.chunks place.old.me.0.turn chunk }
    ensures table { place.new.table_id ≡ place.old.table_id }
    ensures stored { place.new.me ≡ (stored_view place.old.me.0 (status_at chunk) 0, place.old.me.1) }
{
    let word = FIRST_STATUS + chunk as usize;
    shared.table.shared.store::<Store>(place, word, FREE);
}

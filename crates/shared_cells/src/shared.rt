//! The table, and how it is made with all its seats.
ghost use Rattle.std.specs.Prelude.{◌≡◌, ◌≤◌, IfOk, []};
ghost use Rattle.shared_cells.specs.Prelude.{words_for, started, core_size, unopened_view};
ghost use Rattle.shared_cells.specs.Seats.{AreNewPasses, IsFirstTurn, MakesPasses};

use crate::law::HistoryLaw;
use crate::pass::NewPassSeat;
use crate::plays::NewPass;
use crate::turn::NewTurnSeat;
use crate::view::{IndexTable, Place, TableSize};
use atomic_table::Table;
use pin_core::words::{CHUNK_WORDS, CUR, FIRST_CELL, word_of_version};
use std::alloc::{AllocError, Global};

/// The words that the threads of one index share. Each step on them is by a seat of this table.
#[derive(Drop)]
pub struct Shared<O, E, L: HistoryLaw<O, E>> {
    pub table: IndexTable<O, E, L>,
    ghost few: { (table.shared.key.passes ≤ 64) × (table.shared.key.chunks ≤ 4096) },
    ghost wide: { words_for table.shared.key.chunks ≡ table.shared.table_id.words },
}

/// A table with its seats: one for each pass, and the turn's.
type Seats<O, E, L> = (Shared<O, E, L>, Vec<NewPassSeat<O, E>>, NewTurnSeat<O, E>);

impl<O, E, L: HistoryLaw<O, E>> Shared<O, E, L> {
    /// A table that isn't open, with a seat for each pass and the turn's. No later call takes memory.
    pub fn new(alloc: Global, chunks: u32, passes: u32) -> Result<Seats<O, E, L>, AllocError>
        requires passes { (1 ≤ passes) × (passes ≤ 64) }
        requires chunks { (1 ≤ chunks) × (chunks ≤ 4096) }
        ensures size { IfOk result (λ made. (made.0.table.shared.key.passes ≡ passes) × (made.0.table.shared.key.chunks ≡ chunks)) }
        ensures passes { IfOk result (λ made. AreNewPasses made.0.table.shared.table_id chunks passes made.1.items) }
        ensures turn { IfOk result (λ made. IsFirstTurn made.0.table.shared.table_id made.0.table.shared.key passes made.2) }
    {
        let size = TableSize { passes, chunks };
        let words = first_words(alloc, size)?;
        let (table, mut place) = Table::of_words(alloc, words.as_slice(), &size)?;
        let shared = Shared { table };
        let seats = pass_seats(alloc, &shared, &mut place, passes)?;
        Ok((shared, seats, NewTurnSeat { place, passes }))
    }
}

/// No chunk is given, all passes are idle, and the current version is 0, which is empty.
fn first_words(alloc: Global, size: TableSize) -> Result<Vec<u64>, AllocError>
    requires { size.chunks ≤ 4096 }
    ensures { IfOk result (λ words. words.items ≡ (started (core_size size)).words) }
{
    let mut words = vec![in alloc; 0; FIRST_CELL + CHUNK_WORDS * size.chunks as usize]?;
    words[CUR] = word_of_version(0, None);
    Ok(words)
}

/// A seat for each pass.
fn pass_seats<O, E, L: HistoryLaw<O, E>>(
    alloc: Global,
    shared: &Shared<O, E, L>,
    place: &mut Place<O, E>,
    passes: u32,
) -> Result<Vec<NewPassSeat<O, E>>, AllocError>
    requires table { place.old.table_id ≡ shared.now.table.shared.table_id }
    requires passes { passes ≡ shared.now.table.shared.key.passes }
    requires first { place.old.me ≡ (unopened_view shared.now.table.shared.key 0, []) }
    ensures table { place.new.table_id ≡ place.old.table_id }
    ensures passes { IfOk result (λ seats. MakesPasses shared.now.table.shared.table_id shared.now.table.shared.key passes place.new.me seats.items) }
{
    let mut seats = Vec::new(alloc);
    for number in 0..passes {
        let place = shared.table.shared.split_seat::<NewPass>(place);
        seats.push(NewPassSeat { place, number })?;
    }
    Ok(seats)
}

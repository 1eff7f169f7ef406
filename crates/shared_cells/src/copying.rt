//! Words of cells that the turn copies, side by side to others.
//!
//! The table stays the same for all of them, where a cell that is read or written by itself asks for it each time.
ghost use Rattle.std.specs.Prelude.{◌≡◌, ◌+◌, ◌*◌, ◌^◌, ◌≤◌, true};
ghost use Rattle.shared_cells.specs.Prelude.{has_turn, kept_in, stored_view, IsBlankWord, MayCopy, MayCopyCells, HasCopied};

use crate::law::HistoryLaw;
use crate::plays::{Recall, Store};
use crate::shared::Shared;
use crate::view::Place;

/// Stores a word of a cell that no kept version has.
#[inline]
fn store_word<O, E, L: HistoryLaw<O, E>>(
    shared: &Shared<O, E, L>,
    place: &mut Place<O, E>,
    word: usize,
    value: u64,
)
    requires table { place.old.table_id ≡ shared.now.table.shared.table_id }
    requires turn { has_turn place.old.me.0.turn ≡ true }
    requires blank { IsBlankWord shared.now.table.shared.key.chunks (kept_in place.old.me.0.turn) word }
    ensures table { place.new.table_id ≡ place.old.table_id }
    ensures stored { place.new.me ≡ (stored_view place.old.me.0 word value, place.old.me.1) }
{
    shared.table.shared.store::<Store>(place, word, value);
}

/// Copies a word.
#[inline]
fn copy_word<O, E, L: HistoryLaw<O, E>>(
    shared: &Shared<O, E, L>,
    place: &mut Place<O, E>,
    from: usize,
    to: usize,
)
    requires table { place.old.table_id ≡ shared.now.table.shared.table_id }
    requires may { MayCopy shared.now.table.shared.key.chunks shared.now.table.shared.table_id.words place.old.me from to 1 }
    ensures table { place.new.table_id ≡ place.old.table_id }
    ensures copied { HasCopied place.old.me place.new.me from to 1 }
{
    let word = shared.table.shared.load::<Recall>(place, from);
    store_word(shared, place, to, word);
}

/// Copies the two words of a cell.
#[inline]
fn copy_two<O, E, L: HistoryLaw<O, E>>(
    shared: &Shared<O, E, L>,
    place: &mut Place<O, E>,
    from: usize,
    to: usize,
)
    requires small { (from + 2 ≤ 2 ^ 24) × (to + 2 ≤ 2 ^ 24) }
    requires table { place.old.table_id ≡ shared.now.table.shared.table_id }
    requires may { MayCopy shared.now.table.shared.key.chunks shared.now.table.shared.table_id.words place.old.me from to 2 }
    ensures table { place.new.table_id ≡ place.old.table_id }
    ensures copied { HasCopied place.old.me place.new.me from to 2 }
{
    copy_word(shared, place, from, to);
    copy_word(shared, place, from + 1, to + 1);
}

/// Copies the words of two cells.
#[inline]
fn copy_four<O, E, L: HistoryLaw<O, E>>(
    shared: &Shared<O, E, L>,
    place: &mut Place<O, E>,
    from: usize,
    to: usize,
)
    requires small { (from + 4 ≤ 2 ^ 24) × (to + 4 ≤ 2 ^ 24) }
    requires table { place.old.table_id ≡ shared.now.table.shared.table_id }
    requires may { MayCopy shared.now.table.shared.key.chunks shared.now.table.shared.table_id.words place.old.me from to 4 }
    ensures table { place.new.table_id ≡ place.old.table_id }
    ensures copied { HasCopied place.old.me place.new.me from to 4 }
{
    copy_two(shared, place, from, to);
    copy_two(shared, place, from + 2, to + 2);
}

/// Copies the words of four cells. Within a loop a word would take six instructions in place of four.
#[inline(never)]
fn copy_eight<O, E, L: HistoryLaw<O, E>>(
    shared: &Shared<O, E, L>,
    place: &mut Place<O, E>,
    from: usize,
    to: usize,
)
    requires small { (from + 8 ≤ 2 ^ 24) × (to + 8 ≤ 2 ^ 24) }
    requires table { place.old.table_id ≡ shared.now.table.shared.table_id }
    requires may { MayCopy shared.now.table.shared.key.chunks shared.now.table.shared.table_id.words place.old.me from to 8 }
    ensures table { place.new.table_id ≡ place.old.table_id }
    ensures copied { HasCopied place.old.me place.new.me from to 8 }
{
    copy_four(shared, place, from, to);
    copy_four(shared, place, from + 4, to + 4);
}

/// Copies the words of three cells or fewer.
#[inline]
fn copy_few<O, E, L: HistoryLaw<O, E>>(
    shared: &Shared<O, E, L>,
    place: &mut Place<O, E>,
    from: usize,
    to: usize,
    cells: usize,
)
    requires few { cells ≤ 3 }
    requires table { place.old.table_id ≡ shared.now.table.shared.table_id }
    requires may { MayCopyCells shared.now.table.shared.key.chunks shared.now.table.shared.table_id.words place.old.me from to cells }
    ensures table { place.new.table_id ≡ place.old.table_id }
    ensures copied { HasCopied place.old.me place.new.me from to (2 * cells) }
{
    if cells > 1 {
        copy_four(shared, place, from, to);
        if cells > 2 {
            copy_two(shared, place, from + 4, to + 4);
        }
    } else if cells > 0 {
        copy_two(shared, place, from, to);
    }
}

/// Copies the words of so many cells, four cells at a time.
pub(crate) fn copy_words<O, E, L: HistoryLaw<O, E>>(
    shared: &Shared<O, E, L>,
    place: &mut Place<O, E>,
    from: usize,
    to: usize,
    cells: usize,
)
    requires table { place.old.table_id ≡ shared.now.table.shared.table_id }
    requires may { MayCopyCells shared.now.table.shared.key.chunks shared.now.table.shared.table_id.words place.old.me from to cells }
    ensures table { place.new.table_id ≡ place.old.table_id }
    ensures copied { HasCopied place.old.me place.new.me from to (2 * cells) }
{
    let mut done = 0;
    while cells - done > 3 {
        copy_eight(shared, place, from + 2 * done, to + 2 * done);
        done += 4;
    }
    copy_few(shared, place, from + 2 * done, to + 2 * done, cells - done);
}

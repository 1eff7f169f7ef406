//! How an index begins.
ghost use Rattle.std.specs.Prelude.{◌≡◌, ◌*◌, ◌<◌, ◌≤◌, [], Some, IfOk, IfErr, All, length, map, slice_get};
ghost use Rattle.std.specs.List.{range_with_len};
ghost use Rattle.std.proofs.Props.{props};
ghost use Rattle.trie_model.specs.Keys.{Rises};
ghost use Rattle.trie_model.specs.Shape.{cells as cells_in_trie};
ghost use Rattle.chunk_usage.specs.Handing.{Lacks};
ghost use Rattle.trie_write.specs.Entries.{entries_of_items};
ghost use Rattle.shared_cells.specs.Views.{number_of};
ghost use Rattle.shared_cells.specs.Steps.{CanOpen, Opened};
ghost use Rattle.qp_multi.specs.Operations.{applied, AreWithin};
ghost use Rattle.qp_multi.specs.Meanings.{IsVersion};
ghost use Rattle.qp_multi.specs.Passes.{commits_in, first_version, pinned_in};
ghost use Rattle.qp_multi.specs.Bases.{StandsFor};
ghost use Rattle.qp_multi.specs.Openings.{AreFirst, AreNewSeats, CanFill, IsFilled, IsOpened, IsTableSize, IsUnused, OpensTurn, Refuses, room_in};

use crate::index::{Index, Turn};
use crate::meaning::{Law, Meaning, Named, Operations, Version};
use crate::pass::Pass;
use crate::writer::WriterAtRest;
use chunk_usage::Usage;
use chunk_usage::capacity::FILLED_CELLS;
use evacuate::find_spans;
use packed_node::Ref;
use shared_cells::{Lent, NewPassSeat, NewTurnSeat, Opening, Shared, TurnSeat};
use std::alloc::{AllocError, Global};
use std::marker::{Brand, PhantomData};
use std::sync::Mutex;
use thiserror::Error;
use trie_write::{Item, build, cells_beyond};

// More items than memory holds.
const MANY_ITEMS: usize = 1 << 40;

/// A table of so many chunks and passes, on which no index was opened yet. All memory that its index needs is taken, but for the
/// list of its passes.
#[derive(Drop)]
pub struct Blank<L: Law> {
    pub(crate) shared: Shared<Version, Operations, Meaning<L>>,
    seats: Vec<NewPassSeat<Version, Operations>>,
    turn: NewTurnSeat<Version, Operations>,
    usage: Usage,
    ghost turn_here: { turn.place.table_id ≡ shared.table.shared.table_id },
    ghost seats_here: { All (λ s. s.place.table_id ≡ shared.table.shared.table_id) seats.items },
    ghost unseen: { All (λ s. length s.place.me.0.seen.history ≡ 0) seats.items },
    ghost unused_seats: { All (λ s. (commits_in s.place.me.0.pass ≡ []) × (pinned_in s.place.me.0.pass ≡ [])) seats.items },
    ghost numbered: { map (λ s. number_of s.place.me.0.pass) seats.items ≡ range_with_len 1 shared.table.shared.key.passes },
    ghost size: { shared.table.shared.key.chunks ≡ length usage.given },
    ghost some: { 1 ≤ shared.table.shared.key.passes },
    ghost enough: { 16 ≤ length usage.given },
    ghost unused: { IsUnused turn.place.me.0.turn usage turn.passes } by { Prim.hlevel props },
}

/// Why no index begins with some items.
#[derive(Clone, Copy, PartialEq, Eq, Debug, Error)]
pub enum OpenRefusal {
    /// Their trie has so many cells, over the limit.
    #[error("{cells} cells, where there is room for {limit}")]
    Full { cells: u64, limit: u64 },
    /// Want of memory, where their trie fits.
    #[error("out of memory")]
    Memory,
}

impl<L: Law> Blank<L> {
    /// A table with 16 to 4,096 chunks, for 1 to 64 passes.
    pub fn new(alloc: Global, chunks: u32, passes: u32) -> Result<Blank<L>, AllocError>
        requires { IsTableSize chunks passes }
        ensures chunks { IfOk result (λ blank. blank.shared.table.shared.key.chunks ≡ chunks) }
        ensures passes { IfOk result (λ blank. blank.shared.table.shared.key.passes ≡ passes) }
    {
        let (shared, seats, turn) = Shared::new(alloc, chunks, passes)?;
        let usage = Usage::new(alloc, chunks, passes)?;
        Ok(Blank {
            shared,
            seats,
            turn,
            usage,
        })
    }
}

/// How many cells are sure to find room in so many chunks.
pub fn room_in(chunks: u32) -> u64
    requires some { 1 ≤ chunks }
    ensures { result ≡ room_in chunks }
{
    FILLED_CELLS * u64::from(chunks - chunks / 4 - 1)
}

/// Writes a trie of the items into cells whose seat is named.
fn fill<L: Law, B: Lent<Version, Operations>>(
    shared: &Shared<Version, Operations, Meaning<L>>,
    turn: NewTurnSeat<Version, Operations>,
    usage: &mut Usage,
    items: &[Item],
) -> (
    NewTurnSeat<Version, Operations>,
    Result<Option<Ref>, chunk_usage::Shortage>,
)
    requires can { CanFill shared.now.table.shared.table_id shared.now.table.shared.key.chunks turn usage.old (entries_of_items items.now) }
    requires lent { (turn.place.table_id ≡ B.table) × (turn.place.me.0 ≡ B.view) }
    ensures filled { IsFilled turn result.0 usage.old usage.new (entries_of_items items.now) }
    ensures stands { IfOk result.1 (λ root. StandsFor result.0.place.me.0 usage.new root (entries_of_items items.now)) }
    ensures full { IfErr result.1 (λ f. Lacks usage.new f) }
{
    usage.known(); // for the proof
    let mut cells = turn.lend::<Meaning<L>, B>(shared);
    match build(&mut cells, usage, items) {
        Ok(root) => {
            find_spans(&mut cells, usage, root);
            (cells.into_new(), Ok(root))
        }
        Err(full) => (cells.into_new(), Err(full)),
    }
}

/// Opens the index with the trie of a root, as version 0. What that is, and its cells, are named.
fn open_turn<L: Law, M: Opening<Version>>(
    shared: &Shared<Version, Operations, Meaning<L>>,
    turn: NewTurnSeat<Version, Operations>,
    root: Option<Ref>,
    _items: &[Item],
) -> TurnSeat<Version, Operations>
    requires table { turn.place.table_id ≡ shared.now.table.shared.table_id }
    requires can { CanOpen applied L.lawful (AreWithin L.most_operations) IsVersion shared.now.table.shared.key turn.place.me.0 M.version root M.image }
    ensures table { result.place.table_id ≡ turn.place.table_id }
    ensures opened { Opened turn.place.me.0 M.version root M.image result.place.me.0 }
    ensures passes { result.passes ≡ turn.passes }
{
    turn.open::<Meaning<L>, M>(shared, root)
}

/// Tells each pass of the opening. The passes stand in the reverse order of their seats.
fn tell_passes<L: Law, N: Named>(
    alloc: Global,
    shared: &Shared<Version, Operations, Meaning<L>>,
    turn: &mut TurnSeat<Version, Operations>,
    seats: Vec<NewPassSeat<Version, Operations>>,
    place: u32,
) -> Result<Vec<Pass<N>>, AllocError>
    requires named { slice_get N.tables place ≡ Some shared.now.table.shared.table_id }
    requires turn { (turn.old.place.table_id ≡ shared.now.table.shared.table_id) × (length turn.old.place.me.0.seen.history ≡ 0) }
    requires seats { AreNewSeats shared.now.table.shared.table_id shared.now.table.shared.key.passes seats.items }
    ensures same { (turn.new.place.table_id ≡ turn.old.place.table_id) × (turn.new.place.me.0 ≡ turn.old.place.me.0) × (turn.new.passes ≡ turn.old.passes) }
    ensures passes { IfOk result (λ passes. AreFirst place (length seats.items) (first_version turn.old.place.me.0.seen) passes.items) }
{
    let mut seats = seats;
    let mut passes = Vec::new(alloc);
    while let Some(seat) = seats.pop() {
        let note = turn.note(shared);
        let seat = seat.learn(shared, note);
        passes.push(Pass {
            place,
            seat: Some(seat),
            names: PhantomData,
        })?;
    }
    Ok(passes)
}

impl<L: Law, N: Named> Index<L, N> {
    // The turn after the opening, with its usage.
    fn first_writer(
        shared: &Shared<Version, Operations, Meaning<L>>,
        turn: NewTurnSeat<Version, Operations>,
        usage: Usage,
        items: &[Item],
    ) -> WriterAtRest
        requires can { CanFill shared.now.table.shared.table_id shared.now.table.shared.key.chunks turn usage (entries_of_items items.now) }
        requires enough { 16 ≤ length usage.given }
        requires lawful { L.lawful (entries_of_items items.now) (entries_of_items items.now) }
        requires room { cells_in_trie (entries_of_items items.now) ≤ room_in (length usage.given) }
        ensures opened { OpensTurn turn.place.table_id (entries_of_items items.now) result.seat }
    {
        let mut usage = usage;
        let (turn, built) = fill::<L, Brand>(shared, turn, &mut usage, items);
        usage.known(); // for the proof
        let Ok(root) = built else {
            // There was room: each chunk that was left for another has at most 255 cells left.
            unreachable!();
        };
        let seat = open_turn::<L, Brand>(shared, turn, root, items);
        usage.freeze(0);
        WriterAtRest { seat, usage, root }
    }

    // An index whose version 0 has these items, for which there is room.
    fn filled(
        alloc: Global,
        blank: Blank<L>,
        place: u32,
        items: &[Item],
    ) -> Result<(Index<L, N>, Vec<Pass<N>>), AllocError>
        requires named { slice_get N.tables place ≡ Some blank.shared.table.shared.table_id }
        requires rising { Rises (entries_of_items items.now) }
        requires lawful { L.lawful (entries_of_items items.now) (entries_of_items items.now) }
        requires room { cells_in_trie (entries_of_items items.now) ≤ room_in blank.shared.table.shared.key.chunks }
        ensures opens { IfOk result (IsOpened place blank.shared.table.shared.key (entries_of_items items.now)) }
    {
        let Blank {
            shared,
            seats,
            turn,
            usage,
        } = blank;
        let mut writer = Index::<L, N>::first_writer(&shared, turn, usage, items);
        let passes = tell_passes(alloc, &shared, &mut writer.seat, seats, place)?;
        let count = passes.len() as u32;
        let turn = Turn {
            place,
            writer,
            names: PhantomData,
        };
        let index = Index {
            place,
            passes: count,
            shared,
            turn: Mutex::new(Some(turn)),
        };
        Ok((index, passes))
    }

    /// An index on a table that N names at this place, whose version 0 has these items, with its passes.
    pub fn open(
        alloc: Global,
        blank: Blank<L>,
        place: u32,
        items: &[Item],
    ) -> Result<(Index<L, N>, Vec<Pass<N>>), OpenRefusal>
        requires named { slice_get N.tables place ≡ Some blank.shared.table.shared.table_id }
        requires rising { Rises (entries_of_items items.now) }
        requires lawful { L.lawful (entries_of_items items.now) (entries_of_items items.now) }
        ensures opens { IfOk result (IsOpened place blank.shared.table.shared.key (entries_of_items items.now)) }
        ensures full { IfErr result (λ refusal. Refuses blank.shared.table.shared.key.chunks (entries_of_items items.now) refusal) }
    {
        if items.len() >= MANY_ITEMS {
            return Err(OpenRefusal::Memory);
        }
        let limit = room_in(blank.usage.chunks());
        if let Some(cells) = cells_beyond(items, limit) {
            return Err(OpenRefusal::Full { cells, limit });
        }
        match Index::filled(alloc, blank, place, items) {
            Ok(made) => Ok(made),
            Err(_) => Err(OpenRefusal::Memory),
        }
    }
}

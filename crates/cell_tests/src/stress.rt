//! One writer and two readers, each in a thread of its own, on an index of six chunks. Version n is the number n, in one cell of
//! the chunk n modulo 6, so each chunk is freed, given again and written over and over.
ghost use Rattle.std.specs.Prelude.{◌≡◌, ◌+◌, ◌%◌, ◌≤◌, ◌==◌, not, true, Some, []};
ghost use Rattle.cell_tests.specs.Prelude.{list_any, OnTrue, pinned_image, pinned_root};
ghost use Rattle.cell_tests.specs.Prelude.{CanPublish, Published, place_of, IsVersion, IsTold, KnowsChunks, KnowsTurn, Writes, CanGoOn, IsFresh};

use chunk_cells::{CellRead, CellWrite};
use packed_node::Cell;
use shared_cells::{
    HistoryLaw, JoinedSeat, KeptVersions, Lent, NewPassSeat, NewTurnSeat, Opening, PassSeat,
    Payload, PinnedCells, PinnedSeat, Shared, TurnSeat,
};
use std::marker::Brand;
use std::test::Fail;
use std::thread::{Threads, join};

/// Version n is n, whatever the entries are.
struct Numbers;

impl HistoryLaw<u64, u64> for Numbers {
    ghost use Rattle.std.specs.Prelude.{◌+◌};
    ghost use Rattle.cell_tests.specs.OneCell.{IsVersion};

    ghost applied = { λ n change. n + 1 };

    ghost lawful = { λ first n. Unit {0} };

    ghost permitted = { λ change. Unit {0} };

    ghost stands = { IsVersion };
}

/// The index opens with version 0.
struct Zero;

impl Opening<u64> for Zero {
    ghost use Rattle.std.specs.Prelude.{Some, [], ◌∷◌};
    ghost use Rattle.cell_tests.specs.OneCell.{cell_of};

    ghost version = { Some 0 };

    ghost image = { cell_of 0 ∷ [] };
}

type Index = Shared<u64, u64, Numbers>;

/// Whether one of these versions is in the chunk.
fn is_in_use(versions: &[u64], chunk: u32) -> bool
    ensures { result ≡ list_any (λ v. v % 6 == chunk) versions.now }
{
    versions
        .iter()
        .any(|version| *version % 6 == u64::from(chunk))
}

/// Writes the next version into its chunk, if no version that is kept is there. A chunk that is given is freed and given anew.
fn lay<C: CellWrite>(cells: &mut C, versions: &[u64], given: &mut [bool], next: u64) -> bool
    requires knows { KnowsChunks given.old versions.now (C.given cells.old) (C.kept cells.old) }
    ensures given { C.given cells.new ≡ given.new }
    ensures kept { C.kept cells.new ≡ C.kept cells.old }
    ensures answer { result ≡ not (list_any (λ v. v % 6 == next % 6) versions.now) }
    ensures written { OnTrue result (C.has cells.new (place_of next) (record { big = next; small = next })) }
{
    let chunk = (next % 6) as u32;
    if is_in_use(versions, chunk) {
        return false;
    }
    if given[chunk as usize] {
        cells.free(chunk);
    }
    cells.give(chunk);
    given[chunk as usize] = true;
    let cell = Cell {
        big: next,
        small: next,
    };
    cells.put(1024 * chunk, cell);
    true
}

/// Writes version 0, before the index is open.
fn write_first<B: Lent<u64, u64>>(
    index: &Index,
    turn: NewTurnSeat<u64, u64>,
    given: &mut [bool],
) -> NewTurnSeat<u64, u64>
    requires table { turn.place.table_id ≡ index.now.table.shared.table_id }
    requires lent { (turn.place.table_id ≡ B.table) × (turn.place.me.0 ≡ B.view) }
    requires knows { KnowsTurn given.old [] index.now.table.shared.key.chunks turn.place.me.0.turn }
    ensures table { result.place.table_id ≡ turn.place.table_id }
    ensures writes { Writes index.now.table.shared.key.chunks 0 true turn.place.me.0 result.place.me.0 given.new }
{
    let mut cells = turn.lend::<Numbers, B>(index);
    lay(&mut cells, &[], given, 0);
    cells.into_new()
}

/// Writes the next version, if no version that is kept is in its chunk.
fn write_next<B: Lent<u64, u64>>(
    index: &Index,
    turn: JoinedSeat<u64, u64>,
    versions: &[u64],
    given: &mut [bool],
    next: u64,
) -> (JoinedSeat<u64, u64>, bool)
    requires table { turn.place.table_id ≡ index.now.table.shared.table_id }
    requires lent { (turn.place.table_id ≡ B.table) × (turn.place.me.0 ≡ B.view) }
    requires knows { KnowsTurn given.old versions.now index.now.table.shared.key.chunks turn.place.me.0.turn }
    ensures table { result.0.place.table_id ≡ turn.place.table_id }
    ensures writes { Writes index.now.table.shared.key.chunks next result.1 turn.place.me.0 result.0.place.me.0 given.new }
{
    let mut cells = turn.lend::<Numbers, B>(index);
    let is_written = lay(&mut cells, versions, given, next);
    (cells.into_joined(), is_written)
}

/// Publishes the next version, whose cell is written.
fn publish<L: HistoryLaw<u64, u64>, M: Payload<u64>>(
    index: &Shared<u64, u64, L>,
    turn: &mut JoinedSeat<u64, u64>,
    next: u64,
) -> u64
    requires table { turn.old.place.table_id ≡ index.now.table.shared.table_id }
    requires can { CanPublish L.applied L.lawful L.permitted L.stands index.now.table.shared.key turn.old.place.me.0 M.change (Some (place_of next)) M.image }
    ensures table { turn.new.place.table_id ≡ turn.old.place.table_id }
    ensures numbers { (turn.new.number ≡ turn.old.number) × (result ≡ turn.old.version + 1) }
    ensures published { Published turn.old.place.me.0 M.change (Some (place_of next)) M.image turn.new.place.me.0 }
{
    let root = 1024 * (next % 6) as u32;
    turn.publish::<L, M>(index, Some(root))
}

/// A transaction: the next version, if its chunk is free of kept ones, and a round.
fn transact(
    index: &Index,
    turn: TurnSeat<u64, u64>,
    pass: PassSeat<u64, u64>,
    kept: &KeptVersions,
    given: &mut [bool],
) -> (TurnSeat<u64, u64>, PassSeat<u64, u64>, KeptVersions)
    requires tables { (turn.place.table_id ≡ index.now.table.shared.table_id) × (pass.place.table_id ≡ index.now.table.shared.table_id) }
    requires can { CanGoOn index.now.table.shared.key.chunks turn.version turn.place.me.0 given.old kept.now }
    ensures tables { (result.0.place.table_id ≡ index.now.table.shared.table_id) × (result.1.place.table_id ≡ index.now.table.shared.table_id) }
    ensures told { IsTold index.now.table.shared.key.chunks result.0.place.me.0 given.new result.2 }
    ensures version { result.0.version ≤ turn.version + 1 }
{
    let mut turn = turn.join(index, pass);
    turn.look(index);
    let next = turn.version + 1;
    let (mut turn, is_written) = write_next::<Brand>(index, turn, kept.as_slice(), given, next);
    if is_written {
        publish::<Numbers, Brand>(index, &mut turn, next);
    }
    let mut kept = KeptVersions::new();
    turn.round(index, &mut kept);
    let (turn, pass) = turn.split(index);
    (turn, pass, kept)
}

/// Whether the pinned version's cell has its number.
fn is_its_version(index: &Index, pinned: &mut PinnedSeat<u64, u64>) -> bool
    requires table { pinned.old.place.table_id ≡ index.now.table.shared.table_id }
    requires stood { IsVersion (pinned_image pinned.old.place.me.0.progress) (pinned_root pinned.old.place.me.0.progress) pinned.old.version }
    ensures same { pinned.new ≡ pinned.old }
    ensures right { result ≡ true }
{
    let version = pinned.version;
    let Some(root) = pinned.root else {
        return false;
    };
    let cell = PinnedCells::new(index, pinned).cell(root);
    cell.big == version && cell.small == version
}

/// A pass pins a version and reads it; whether that was what it had pinned.
fn read_once(index: &Index, pass: PassSeat<u64, u64>) -> (PassSeat<u64, u64>, bool)
    requires table { pass.place.table_id ≡ index.now.table.shared.table_id }
    requires opening { pass.place.me.0.seen.opening ≡ Some 0 }
    ensures table { result.0.place.table_id ≡ index.now.table.shared.table_id }
    ensures opening { result.0.place.me.0.seen.opening ≡ Some 0 }
    ensures right { result.1 ≡ true }
{
    let mut pinned = pass.pin(index);
    let is_right = is_its_version(index, &mut pinned);
    (pinned.unpin(index), is_right)
}

/// How often a pass read what it hadn't pinned.
fn read_often(index: &Index, pass: PassSeat<u64, u64>, times: u32) -> u32
    requires table { pass.place.table_id ≡ index.now.table.shared.table_id }
    requires opening { pass.place.me.0.seen.opening ≡ Some 0 }
    ensures { result ≡ 0 }
{
    let mut pass = pass;
    let mut wrong = 0;
    for _ in 0..times {
        let (next, is_right) = read_once(index, pass);
        pass = next;
        if !is_right {
            wrong += 1;
        }
    }
    wrong
}

/// The writer's seats, and what it was told last.
#[derive(Drop)]
struct Writer {
    turn: TurnSeat<u64, u64>,
    pass: PassSeat<u64, u64>,
    kept: KeptVersions,
    given: [bool; 6],
}

/// So many transactions; the version that the last one left.
fn write_often(index: &Index, writer: Writer, times: u32) -> u64
    requires tables { (writer.turn.place.table_id ≡ index.now.table.shared.table_id) × (writer.pass.place.table_id ≡ index.now.table.shared.table_id) }
    requires size { index.now.table.shared.key.chunks ≡ 6 }
    requires told { IsTold index.now.table.shared.key.chunks writer.turn.place.me.0 writer.given writer.kept }
{
    let Writer {
        mut turn,
        mut pass,
        mut kept,
        mut given,
    } = writer;
    for _ in 0..times {
        if turn.version < LAST_VERSION {
            (turn, pass, kept) = transact(index, turn, pass, &kept, &mut given);
        }
    }
    turn.version
}

/// The index is open, with version 0 in its first chunk.
fn open(
    index: &Index,
    turn: NewTurnSeat<u64, u64>,
    given: &mut [bool],
) -> (TurnSeat<u64, u64>, KeptVersions)
    requires table { turn.place.table_id ≡ index.now.table.shared.table_id }
    requires fresh { IsFresh index.now.table.shared.key turn.place.me.0 given.old }
    ensures table { result.0.place.table_id ≡ index.now.table.shared.table_id }
    ensures told { IsTold index.now.table.shared.key.chunks result.0.place.me.0 given.new result.1 }
{
    let turn = write_first::<Brand>(index, turn, given);
    let mut turn = turn.open::<Numbers, Zero>(index, Some(0));
    let mut kept = KeptVersions::new();
    turn.round(index, &mut kept);
    (turn, kept)
}

/// The pass learns that the index is open.
fn tell(
    index: &Index,
    turn: &mut TurnSeat<u64, u64>,
    pass: NewPassSeat<u64, u64>,
) -> PassSeat<u64, u64>
    requires tables { (turn.old.place.table_id ≡ index.now.table.shared.table_id) × (pass.place.table_id ≡ index.now.table.shared.table_id) }
    requires opening { turn.old.place.me.0.seen.opening ≡ Some 0 }
    ensures table { result.place.table_id ≡ index.now.table.shared.table_id }
    ensures opening { result.place.me.0.seen.opening ≡ Some 0 }
    ensures same { (turn.new.place.table_id ≡ turn.old.place.table_id) × (turn.new.place.me.0 ≡ turn.old.place.me.0) }
{
    let note = turn.note(index);
    pass.learn(index, note)
}

/// All three, each in a thread of its own: the version that the writer left, and how often each reader was wrong.
fn run<R: Threads + Sync>(
    rt: &R,
    index: &Index,
    writer: Writer,
    first: PassSeat<u64, u64>,
    second: PassSeat<u64, u64>,
) -> (u64, (u32, u32))
    requires writer { (writer.turn.place.table_id ≡ index.now.table.shared.table_id) × (writer.pass.place.table_id ≡ index.now.table.shared.table_id) }
    requires size { index.now.table.shared.key.chunks ≡ 6 }
    requires told { IsTold index.now.table.shared.key.chunks writer.turn.place.me.0 writer.given writer.kept }
    requires readers { (first.place.table_id ≡ index.now.table.shared.table_id) × (second.place.table_id ≡ index.now.table.shared.table_id) }
    requires opening { (first.place.me.0.seen.opening ≡ Some 0) × (second.place.me.0.seen.opening ≡ Some 0) }
{
    join(
        rt,
        move || -> u64
            requires tables { (writer.turn.place.table_id ≡ index.now.table.shared.table_id) × (writer.pass.place.table_id ≡ index.now.table.shared.table_id) }
            requires size { index.now.table.shared.key.chunks ≡ 6 }
            requires told { IsTold index.now.table.shared.key.chunks writer.turn.place.me.0 writer.given writer.kept }
        { write_often(index, writer, TRANSACTIONS) },
        move || -> (u32, u32)
            requires tables { (first.place.table_id ≡ index.now.table.shared.table_id) × (second.place.table_id ≡ index.now.table.shared.table_id) }
            requires opening { (first.place.me.0.seen.opening ≡ Some 0) × (second.place.me.0.seen.opening ≡ Some 0) }
        { read_beside(rt, index, first, second) },
    )
}

/// Both readers, each in a thread of its own.
fn read_beside<R: Threads + Sync>(
    rt: &R,
    index: &Index,
    first: PassSeat<u64, u64>,
    second: PassSeat<u64, u64>,
) -> (u32, u32)
    requires tables { (first.place.table_id ≡ index.now.table.shared.table_id) × (second.place.table_id ≡ index.now.table.shared.table_id) }
    requires opening { (first.place.me.0.seen.opening ≡ Some 0) × (second.place.me.0.seen.opening ≡ Some 0) }
{
    join(
        rt,
        move || -> u32
            requires table { first.place.table_id ≡ index.now.table.shared.table_id }
            requires opening { first.place.me.0.seen.opening ≡ Some 0 }
        { read_often(index, first, READS) },
        move || -> u32
            requires table { second.place.table_id ≡ index.now.table.shared.table_id }
            requires opening { second.place.me.0.seen.opening ≡ Some 0 }
        { read_often(index, second, READS) },
    )
}

/// The writer stops at this version, however many transactions are left.
const LAST_VERSION: u64 = 1_000_000;

const TRANSACTIONS: u32 = 2_000_000;

const READS: u32 = 1_000_000;

/// At first no chunk is taken twice, so five versions are published whatever the schedule.
#[test]
fn readers_beside_a_writer(rt: HostRuntime) -> Result<(), Fail> {
    let (index, mut seats, turn) = Index::new(rt.alloc(), 6, 3)?;
    let (Some(second), Some(first), Some(pass)) = (seats.pop(), seats.pop(), seats.pop()) else {
        return Err(Fail::from("no seats"));
    };
    let mut given = [false; 6];
    let (mut turn, kept) = open(&index, turn, &mut given);
    let pass = tell(&index, &mut turn, pass);
    let first = tell(&index, &mut turn, first);
    let second = tell(&index, &mut turn, second);
    let writer = Writer {
        turn,
        pass,
        kept,
        given,
    };
    let (version, wrong) = run(&rt, &index, writer, first, second);
    assert_eq!(rt; wrong, (0, 0));
    assert!(rt; version >= 5);
    Ok(())
}

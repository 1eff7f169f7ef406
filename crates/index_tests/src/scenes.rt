//! Scenes that the tests play, each on an index of one item.
ghost use Rattle.std.specs.Prelude.{◌≡◌, ◌≤◌, Some, IsSome, slice_get};
ghost use Rattle.trie_model.specs.Keys.{Rises};
ghost use Rattle.trie_write.specs.Entries.{entries_of_items};

use crate::crowd::{at_once, crowd, moved};
use crate::items::numbered;
use crate::long_items::{exchanged, read_while_exchanged};
use crate::rewriting::{compacted, rewritten};
use crate::rows::{LARGE, crowded, dropped, full, held, in_turn, kept, rolled_back, told};
use crate::worker::{Act, Any, Worker, workers};
use qp_multi::{Blank, Index, Named, Pass};
use std::alloc::Global;
use std::marker::Brand;
use std::sync::Wait;
use std::thread::Threads;
use trie_write::Item;

/// What passes do with an index.
#[derive(Clone, Copy)]
enum Scene {
    Held,
    InTurn,
    Told,
    RolledBack,
    Dropped,
    Full,
    Crowded,
    Kept,
    AtOnce,
    Moved,
    Rewritten,
    Compacted,
    Exchanged,
    /// So many exchanges of a long item, and readers beside them.
    Long(u64),
    /// So many transactions, and readers beside them.
    Crowd(u64),
}

/// Plays a scene. Whether all was right; nothing where passes or memory are wanting.
fn act<N: Named + Send + Sync, R: Threads + Wait + Sync>(
    rt: &R,
    alloc: Global,
    workers: Vec<Worker<N>>,
    first: &Item,
    second: &Item,
    scene: Scene,
) -> Option<bool> {
    match scene {
        Scene::Held => held(rt, alloc, workers, second),
        Scene::InTurn => in_turn(rt, alloc, workers, first),
        Scene::Told => told(rt, alloc, workers, second),
        Scene::RolledBack => rolled_back(rt, alloc, workers, second),
        Scene::Dropped => dropped(rt, workers, second),
        Scene::Full => full(rt, alloc, workers, second),
        Scene::Crowded => crowded(rt, alloc, workers),
        Scene::Kept => kept(rt, alloc, workers, second),
        Scene::AtOnce => at_once(rt, workers),
        Scene::Moved => moved(rt, alloc, workers, first),
        Scene::Rewritten => rewritten(rt, alloc, workers),
        Scene::Compacted => compacted(rt, workers),
        Scene::Exchanged => exchanged(rt, alloc, workers),
        Scene::Long(last) => read_while_exchanged(rt, alloc, workers, first, last),
        Scene::Crowd(last) => crowd(rt, alloc, workers, last),
    }
}

/// The same on an index of its own.
fn run<N: Named + Send + Sync, R: Threads + Wait + Sync>(
    rt: &R,
    alloc: Global,
    blank: Blank<Any>,
    first: &[Item],
    second: &Item,
    scene: Scene,
) -> Option<bool>
    requires named { slice_get N.tables 0 ≡ Some blank.shared.table.shared.table_id }
    requires rising { Rises (entries_of_items first.now) }
{
    let item = first.first()?;
    let Ok((index, passes)) = Index::<Any, N>::open(alloc, blank, 0, first) else {
        return None;
    };
    let workers = workers(alloc, &index, passes)?;
    act(rt, alloc, workers, item, second, scene)
}

/// Plays a scene on an index of one item, which has so many octets.
fn play<R: Threads + Wait + Sync>(
    rt: &R,
    alloc: Global,
    chunks: u32,
    passes: u32,
    octets: usize,
    scene: Scene,
) -> Option<bool>
    requires { (16 ≤ chunks) × (chunks ≤ 4096) × (1 ≤ passes) × (passes ≤ 64) × (octets ≤ 4096) }
{
    let second = numbered(alloc, [b'a', b'a'], 2, octets)?;
    let first = [numbered(alloc, [b'a', b'a'], 1, octets)?];
    let blank = Blank::<Any>::new(alloc, chunks, passes).ok()?;
    run::<Brand, _>(rt, alloc, blank, &first, &second, scene)
}

/// Who closes an index: all passes but the one that committed, or nobody who has a pass.
#[derive(Clone, Copy)]
enum Closing {
    ByOthers,
    ByNobody,
}

/// A pass puts a name in, and is given up.
fn put_in<N: Named, R: Wait>(rt: &R, index: &Index<Any, N>, pass: Pass<N>, item: &Item)
    requires { (IsSome pass.seat) × (pass.place ≡ index.now.place) }
{
    let mut writer = Worker { index, pass };
    let _receipt = writer.write(rt, item, Act::In);
}

/// One pass commits, and the index is closed. The version that it then had.
fn close<N: Named, R: Wait>(
    rt: &R,
    alloc: Global,
    blank: Blank<Any>,
    items: &[Item],
    second: &Item,
    closing: Closing,
) -> Option<u64>
    requires named { slice_get N.tables 0 ≡ Some blank.shared.table.shared.table_id }
    requires rising { Rises (entries_of_items items.now) }
{
    let Ok((index, mut passes)) = Index::<Any, N>::open(alloc, blank, 0, items) else {
        return None;
    };
    let Some(pass) = passes.pop() else {
        return None;
    };
    put_in(rt, &index, pass, second);
    match closing {
        Closing::ByOthers => Some(index.close(passes)),
        Closing::ByNobody => Some(index.close(Vec::new(alloc))),
    }
}

/// The same on an index of one item.
fn play_close<R: Wait>(rt: &R, alloc: Global, closing: Closing) -> Option<u64> {
    let second = numbered(alloc, [b'a', b'b'], 1, 600)?;
    let first = [numbered(alloc, [b'a', b'a'], 1, 600)?];
    let blank = Blank::<Any>::new(alloc, 16, 8).ok()?;
    close::<Brand, _>(rt, alloc, blank, &first, &second, closing)
}

#[test]
fn a_snapshot_stays_and_the_next_is_newer(rt: HostRuntime) {
    assert!(rt; play(&rt, rt.alloc(), 64, 2, 600, Scene::Held) == Some(true));
}

#[test]
fn a_snapshot_stays_while_others_commit(rt: HostRuntime) {
    assert!(rt; play(&rt, rt.alloc(), 16, 2, 12, Scene::InTurn) == Some(true));
}

#[test]
fn a_note_tells_of_a_commit(rt: HostRuntime) {
    assert!(rt; play(&rt, rt.alloc(), 64, 2, 600, Scene::Told) == Some(true));
}

#[test]
fn a_working_set_is_gone_after_a_rollback(rt: HostRuntime) {
    assert!(rt; play(&rt, rt.alloc(), 16, 2, 600, Scene::RolledBack) == Some(true));
}

#[test]
fn dropped_transactions_take_nothing(rt: HostRuntime) {
    assert!(rt; play(&rt, rt.alloc(), 16, 1, 4096, Scene::Dropped) == Some(true));
}

// Of 21 chunks 5 are kept free. The other 16 have room for 64 versions: the first, and one that each pass but the writer's holds.
#[test]
fn held_versions_fill_the_table(rt: HostRuntime) {
    assert!(rt; play(&rt, rt.alloc(), 21, 64, LARGE, Scene::Full) == Some(true));
}

// The 63 passes beside the writer's are more than 16 chunks have room for versions.
#[test]
fn held_versions_fill_a_table_of_sixteen_chunks(rt: HostRuntime) {
    assert!(rt; play(&rt, rt.alloc(), 16, 64, 4096, Scene::Crowded) == Some(true));
}

#[test]
fn a_version_is_kept_while_it_is_read(rt: HostRuntime) {
    assert!(rt; play(&rt, rt.alloc(), 64, 2, 4096, Scene::Kept) == Some(true));
}

#[test]
fn two_queries_at_once(rt: HostRuntime) {
    assert!(rt; play(&rt, rt.alloc(), 16, 2, 600, Scene::AtOnce) == Some(true));
}

#[test]
fn a_snapshot_is_read_in_another_thread(rt: HostRuntime) {
    assert!(rt; play(&rt, rt.alloc(), 64, 2, 600, Scene::Moved) == Some(true));
}

#[test]
fn a_table_is_rewritten_for_long(rt: HostRuntime) {
    assert!(rt; play(&rt, rt.alloc(), 16, 1, 600, Scene::Rewritten) == Some(true));
}

#[test]
fn compactions_keep_the_names(rt: HostRuntime) {
    assert!(rt; play(&rt, rt.alloc(), 16, 1, 600, Scene::Compacted) == Some(true));
}

#[test]
fn items_of_all_lengths_are_exchanged(rt: HostRuntime) {
    assert!(rt; play(&rt, rt.alloc(), 32, 1, 600, Scene::Exchanged) == Some(true));
}

// An item of 65,535 octets lies in five chunks at most. Of 48 chunks a change may take 36: those of the current version, of the next one and
// of three that are read.
#[test]
fn long_items_are_read_while_they_are_exchanged(rt: HostRuntime) {
    assert!(rt; play(&rt, rt.alloc(), 48, 4, 600, Scene::Long(20_000)) == Some(true));
}

#[test]
fn many_readers_beside_a_writer(rt: HostRuntime) {
    assert!(rt; play(&rt, rt.alloc(), 128, 9, 600, Scene::Crowd(10_000)) == Some(true));
}

// A version has some 2,000 cells. Of 64 chunks a change may take 48, and evacuations the others too. So as no change is refused, and all
// that is to be moved finds room, these are enough for the current version and three that are read, however long the table is written.
// Where it was tried, 40 chunks were enough too, and 32 not always.
#[test]
fn a_table_stays_small_for_long(rt: HostRuntime) {
    assert!(rt; play(&rt, rt.alloc(), 64, 4, 12, Scene::Crowd(100_000)) == Some(true));
}

#[test]
fn a_closed_index_tells_its_version(rt: HostRuntime) {
    assert!(rt; play_close(&rt, rt.alloc(), Closing::ByOthers) == Some(1));
}

// The contract can't say that the lock has the turn, so it allows 0 too.
#[test]
fn an_index_closed_with_no_pass_tells_its_version(rt: HostRuntime) {
    assert!(rt; play_close(&rt, rt.alloc(), Closing::ByNobody) == Some(1));
}

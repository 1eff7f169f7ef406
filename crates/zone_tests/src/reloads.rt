//! A zone is exchanged whole again and again, while others read it: each version that they see is one of both zones, whole.
ghost use Rattle.std.specs.Prelude.{◌≡◌, All, Some, IfSome, IsSome, slice_get};
ghost use Rattle.zone_answer.specs.Standing.{ShowsSome};
ghost use Rattle.trie_write.specs.Entries.{entries_of_items};

use dns_name::Name;
use index_items::zone_items;
use master_file::{Zone, read_zone};
use qp_multi::{Blank, Index, Law, Named, Pass, WriteGuard};
use std::alloc::{AllocError, Global};
use std::marker::Brand;
use std::sync::Wait;
use std::test::Fail;
use std::thread::{Threads, join, map_vec};
use trie_read::Reading;
use trie_write::Item;
use zone_diff::Serial;
use zone_edit::{EditRefusal, ItemBuffers};
use zone_reload::{operations_between, operations_to, replace_all};

/// How often the zone is exchanged.
const RELOADS: u64 = 60;

/// How many operations make of either zone the other: the SOA, and of each of sixty names one that goes and one that comes.
const CHANGES: usize = 121;

/// How often each reader asks at most.
const ASKED: u32 = 20_000;

/// Each version is what names own.
struct Stored;

impl Law for Stored {
    ghost use Rattle.std.specs.Prelude.{◌≡◌};
    ghost use Rattle.zone_answer.specs.Standing.{ShowsSome};

    ghost lawful = { λ first es. ShowsSome (λ held. held ≡ es) };
}

/// A pass that is in its place, with its index.
#[derive(Drop)]
struct Worker<'i, N: Named> {
    index: &'i Index<Stored, N>,
    pass: Pass<N>,
    ghost ready: { IsSome pass.seat },
    ghost here: { pass.place ≡ index.now.place },
}

/// Two zones of an origin, as text.
#[derive(Drop)]
struct Texts {
    origin: Name,
    first: String,
    second: String,
}

/// A zone with this serial, in which names that leave a rest own an address with this time.
fn text_of(alloc: Global, serial: u32, rest: u32, time: u32) -> Result<String, AllocError> {
    let mut text = String::new(alloc);
    writeln!(text, "@ 300 SOA ns hostmaster {serial} 3600 600 86400 60")?;
    writeln!(text, "ns 300 A 192.0.2.1")?;
    for number in 0..60 {
        if number % 3 != rest {
            writeln!(text, "n{number} {time} A 192.0.2.{number}")?;
        } else {
            writeln!(text, "n{number} {time} CNAME ns")?;
        }
    }
    Ok(text)
}

impl Texts {
    /// Names that own addresses in one own an alias in the other, and all times differ.
    fn new(alloc: Global) -> Option<Texts> {
        let origin = Name::read(b"example.", &Name::root()).ok()?;
        let first = text_of(alloc, 1, 0, 300).ok()?;
        let second = text_of(alloc, 2, 1, 600).ok()?;
        Some(Texts {
            origin,
            first,
            second,
        })
    }

    /// The zone that the version of a number is: both take turns.
    fn zone(&self, alloc: Global, version: u64) -> Option<Zone> {
        let text = if version % 2 == 0 {
            &self.first
        } else {
            &self.second
        };
        if text.len() > 65_535 {
            return None;
        }
        read_zone(alloc, text.as_bytes(), &self.origin).ok()
    }

    /// Whether nothing makes of a version the zone that it should be.
    fn is_whole<V: Reading>(&self, alloc: Global, version: &mut V, number: u64) -> bool
        requires { ShowsSome (V.holds version.old) }
        ensures { version.new ≡ version.old }
    {
        let Some(zone) = self.zone(alloc, number) else {
            return false;
        };
        match operations_between(alloc, Serial::Keep, version, &zone) {
            Ok(operations) => operations.is_empty(),
            Err(_) => false,
        }
    }
}

impl<N: Named> Worker<'_, N> {
    /// The version that a query shows, and whether it is whole.
    fn sees(&mut self, alloc: Global, texts: &Texts) -> (u64, bool) {
        let mut query = self.pass.query(self.index);
        let version = query.version();
        (version, texts.is_whole(alloc, &mut query, version))
    }

    /// Makes of the current version, which another pass reads meanwhile, a zone. Nobody else writes. The version that is made, if there is
    /// a number for it.
    fn reload<R: Wait>(
        &mut self,
        rt: &R,
        alloc: Global,
        beside: &mut Worker<N>,
        origin: &Name,
        zone: Zone,
        buffers: &mut ItemBuffers,
    ) -> Result<Option<u64>, EditRefusal> {
        let mut locked = WriteGuard::of(self.index);
        let mut write = self.index.write(rt, &mut locked, &mut self.pass);
        let mut version = beside.pass.query(beside.index);
        replace_all(alloc, origin, &mut write, &mut version, zone, buffers)?;
        match write.commit() {
            Ok(receipt) => Ok(Some(receipt.version)),
            Err(_) => Ok(None),
        }
    }

    /// How many operations make of a version the current one.
    fn changes_since<V: Reading>(&mut self, alloc: Global, version: &mut V) -> Option<usize>
        requires { ShowsSome (V.holds version.old) }
        ensures { version.new ≡ version.old }
    {
        let mut current = self.pass.query(self.index);
        let operations = operations_to(alloc, Serial::Keep, version, &mut current).ok()?;
        Some(operations.len())
    }
}

/// Exchanges the current version's zone for the one of the next, while a third pass keeps the version before. Whether the next version was
/// made, and as many operations make of the one before that one as are due.
fn exchange<N: Named, R: Wait>(
    rt: &R,
    alloc: Global,
    writer: &mut Worker<N>,
    beside: &mut Worker<N>,
    keeper: &mut Worker<N>,
    texts: &Texts,
    buffers: &mut ItemBuffers,
    next: u64,
) -> bool {
    let Some(zone) = texts.zone(alloc, next) else {
        return false;
    };
    let mut before = keeper.pass.query(keeper.index);
    let made = writer.reload(rt, alloc, beside, &texts.origin, zone, buffers);
    let changes = writer.changes_since(alloc, &mut before);
    made.ok().flatten() == Some(next) && changes == Some(CHANGES)
}

/// Exchanges the zone so often. Whether all went well.
fn write_on<N: Named, R: Wait>(
    rt: &R,
    alloc: Global,
    writer: Worker<N>,
    beside: Worker<N>,
    keeper: Worker<N>,
    texts: &Texts,
) -> bool {
    let Ok(mut buffers) = ItemBuffers::new(alloc) else {
        return false;
    };
    let (mut writer, mut beside, mut keeper) = (writer, beside, keeper);
    for next in 1..=RELOADS {
        let done = exchange(
            rt,
            alloc,
            &mut writer,
            &mut beside,
            &mut keeper,
            texts,
            &mut buffers,
            next,
        );
        if !done {
            return false;
        }
    }
    true
}

/// Asks so often at most, until the last version is there. Whether all were whole, and none older than the one before.
fn read_on<N: Named>(alloc: Global, reader: Worker<N>, texts: &Texts) -> bool {
    let mut reader = reader;
    let mut seen = 0;
    for _ in 0..ASKED {
        let (version, whole) = reader.sees(alloc, texts);
        if !whole || version < seen {
            return false;
        }
        if version == RELOADS {
            break;
        }
        seen = version;
    }
    true
}

/// All ask beside each other. Whether all was right.
fn read_all<N: Named + Send + Sync, R: Threads + Sync>(
    rt: &R,
    alloc: Global,
    readers: Vec<Worker<N>>,
    texts: &Texts,
) -> bool {
    // What is inferred of a closure isn't proved where its argument has a lifetime, so it has a clause.
    let read = map_vec(
        rt,
        readers,
        &|reader: Worker<N>| -> bool
            ensures { Unit {0} }
        { read_on(alloc, reader, texts) },
    );
    match read {
        Ok(read) => read.iter().all(|right| *right),
        Err(_) => false,
    }
}

/// One exchanges the zone, and all others read.
fn act<N: Named + Send + Sync, R: Threads + Wait + Sync>(
    rt: &R,
    alloc: Global,
    workers: Vec<Worker<N>>,
    texts: &Texts,
) -> Option<bool> {
    let mut workers = workers;
    let writer = workers.pop()?;
    let beside = workers.pop()?;
    let keeper = workers.pop()?;
    let (written, read) = join(
        rt,
        || write_on(rt, alloc, writer, beside, keeper, texts),
        || read_all(rt, alloc, workers, texts),
    );
    Some(written && read)
}

/// A worker for each pass. None for want of memory.
fn workers<'i, N: Named>(
    alloc: Global,
    index: &'i Index<Stored, N>,
    passes: Vec<Pass<N>>,
) -> Option<Vec<Worker<'i, N>>>
    requires { All (λ p. (IsSome p.seat) × (p.place ≡ index.now.place)) passes.items }
{
    let mut passes = passes;
    let mut workers = Vec::new(alloc);
    while let Some(pass) = passes.pop() {
        workers.push(Worker { index, pass }).ok()?;
    }
    Some(workers)
}

/// The same on an index of the first zone's items.
fn run<N: Named + Send + Sync, R: Threads + Wait + Sync>(
    rt: &R,
    alloc: Global,
    blank: Blank<Stored>,
    items: &[Item],
    texts: &Texts,
) -> Option<bool>
    requires named { slice_get N.tables 0 ≡ Some blank.shared.table.shared.table_id }
    requires stored { ShowsSome (λ held. held ≡ entries_of_items items.now) }
{
    let Ok((index, passes)) = Index::<Stored, N>::open(alloc, blank, 0, items) else {
        return None;
    };
    let workers = workers(alloc, &index, passes)?;
    act(rt, alloc, workers, texts)
}

/// The items of the first zone.
fn first_items(alloc: Global, texts: &Texts) -> Option<Vec<Item>>
    ensures { IfSome result (λ items. ShowsSome (λ held. held ≡ entries_of_items items.items)) }
{
    let zone = texts.zone(alloc, 0)?;
    zone_items(alloc, zone).ok()
}

/// Readers beside a writer that exchanges the zone.
fn play<R: Threads + Wait + Sync>(rt: &R, alloc: Global) -> Option<bool> {
    let texts = Texts::new(alloc)?;
    let items = first_items(alloc, &texts)?;
    let blank = Blank::<Stored>::new(alloc, 64, 6).ok()?;
    run::<Brand, _>(rt, alloc, blank, &items, &texts)
}

#[test]
fn readers_see_the_old_zone_whole_or_the_new_one(rt: HostRuntime) -> Result<(), Fail> {
    assert_eq!(rt; play(&rt, rt.alloc()), Some(true));
    Ok(())
}

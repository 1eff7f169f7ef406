//! A version, written as a master file.
ghost use Rattle.std.specs.Prelude.{◌≡◌, ◌+◌, ◌≤◌, ◌++◌, ◌∷◌, [], ℕ, List, length, Option, IfOk, OnOk};
ghost use Rattle.zone_dump.specs.Prelude.{flat_map, StartsWith, most_item_octets, Version, CanReadItems, PassesVersion, TellsFault, WritesVersion};
ghost use Rattle.zone_dump.specs.Prelude.{row_text, all_rows, record_count, soa_ttl, dump, Shows};
ghost use Rattle.zone_dump.specs.Prelude.{ShowsSome, file_text, directives_in, Faces, FacesSome, GivesNext};

use crate::lines::Lines;
use crate::refusal::DumpRefusal;
use crate::text_sink::TextSink;
use dns_name::Name;
use outer_io::Sink;
use rr_data::{Directives, ItemView, SOA, item_buffer};
use shift_key::Key;
use std::alloc::{AllocError, Global};
use std::mem::replace;
use trie_read::{Iter, Reading};
use zone_answer::read_owned;
use zone_model::Style;

/// Reads the item of the next name into the beginning of a buffer, and gives its length; None at the end.
pub fn next_item<V: Reading>(version: &mut V, iter: &mut Iter, item: &mut [u8]) -> Option<usize>
    requires faces { FacesSome (V.stands version.old iter.old) }
    requires room { most_item_octets ≤ length item.old }
    ensures same { version.new ≡ version.old }
    ensures next { (left : Version) → Faces (V.stands version.old iter.old) left → GivesNext (V.stands version.old iter.new) left item.new result }
{
    match version.next_leaf(iter) {
        Some(leaf) => Some(version.read(leaf, item)),
        None => None,
    }
}

/// Adds the lines of all records. More names than 64 bits count are taken for want of memory.
fn push_all<V: Reading, K: Sink>(
    version: &mut V,
    item: &mut [u8],
    lines: &mut Lines,
    sink: &mut K,
) -> Result<(), DumpRefusal>
    requires can { CanReadItems (V.holds version.old) item.old }
    ensures same { version.new ≡ version.old }
    ensures count { (zone : Version) → Shows (V.holds version.old) zone → OnOk result (lines.new.count ≡ lines.old.count + record_count zone) }
    ensures passes { PassesVersion result (V.holds version.old) (K.held sink.old) (K.held sink.new) lines.old lines.new }
    ensures faults { TellsFault result (K.faults sink.old) (K.faults sink.new) }
{
    let mut iter = version.iter();
    'names: for _ in 0..u64::MAX {
        let Some(len) = next_item(version, &mut iter, item) else {
            return Ok(());
        };
        lines.push_item(&item[..len], sink)?;
    }
    Err(DumpRefusal::Memory)
}

/// Writes a version under directives, or in full. An item is read into a buffer that is lent.
fn dump_lines<V: Reading, K: Sink>(
    alloc: Global,
    version: &mut V,
    directives: Option<Directives>,
    item: &mut [u8],
    sink: &mut K,
) -> Result<u64, DumpRefusal>
    requires can { CanReadItems (V.holds version.old) item.old }
    ensures same { version.new ≡ version.old }
    ensures count { (zone : Version) → Shows (V.holds version.old) zone → IfOk result (λ n. n ≡ record_count zone) }
    ensures written { WritesVersion result (V.holds version.old) (K.held sink.old) (K.held sink.new) (file_text directives) }
    ensures faults { TellsFault result (K.faults sink.old) (K.faults sink.new) }
{
    let mut lines = Lines::new(alloc, directives)?;
    push_all(version, item, &mut lines, sink)?;
    lines.finish(sink)
}

/// The time to live of the SOA at the origin; 0 where there is none.
fn soa_ttl<V: Reading>(version: &mut V, origin: &Name, item: &mut [u8]) -> u32
    requires can { CanReadItems (V.holds version.old) item.old }
    ensures same { version.new ≡ version.old }
    ensures ttl { (zone : Version) → Shows (V.holds version.old) zone → result ≡ soa_ttl origin.now zone }
{
    let _wire = origin.wire(); // for the proof
    let len = read_owned(version, origin, &Key::of(origin), item);
    match ItemView::of(origin, &item[..len]).find_set(SOA) {
        Some(soa) => soa.ttl(),
        None => 0,
    }
}

/// The directives that a dump in this style stands under.
fn directives_for<V: Reading>(
    version: &mut V,
    origin: &Name,
    style: Style,
    item: &mut [u8],
) -> Option<Directives>
    requires can { CanReadItems (V.holds version.old) item.old }
    ensures same { version.new ≡ version.old }
    ensures directives { (zone : Version) → Shows (V.holds version.old) zone → result ≡ directives_in style origin.now zone }
{
    match style {
        Style::Full => None,
        Style::Short => Some(Directives::new(origin, soa_ttl(version, origin, item))),
    }
}

/// Writes a version of the zone of an origin to a sink, as a master file, and tells how many records it has. Of the zone the
/// style [`Style::Short`] needs that it has an SOA at the origin: where there is none, the file says that the default time
/// to live is 0. With a refusal the sink has taken a front of the file.
pub fn dump_to<V: Reading, K: Sink>(
    alloc: Global,
    version: &mut V,
    origin: &Name,
    style: Style,
    sink: &mut K,
) -> Result<u64, DumpRefusal>
    requires { ShowsSome (V.holds version.old) }
    ensures same { version.new ≡ version.old }
    ensures count { (zone : Version) → Shows (V.holds version.old) zone → IfOk result (λ n. n ≡ record_count zone) }
    ensures written { WritesVersion result (V.holds version.old) (K.held sink.old) (K.held sink.new) (dump style origin.now) }
    ensures faults { TellsFault result (K.faults sink.old) (K.faults sink.new) }
{
    let mut item = item_buffer(alloc)?;
    let directives = directives_for(version, origin, style, &mut item);
    dump_lines(alloc, version, directives, &mut item, sink)
}

/// Pushes a version in full, a line for each record, and tells how many there are. An item is read into a buffer that is lent.
/// Where no memory is left, a front of the lines may have been pushed.
pub fn dump_text<V: Reading>(
    alloc: Global,
    version: &mut V,
    item: &mut [u8],
    out: &mut Vec<u8>,
) -> Result<u64, AllocError>
    requires can { CanReadItems (V.holds version.old) item.old }
    ensures same { version.new ≡ version.old }
    ensures count { (zone : Version) → Shows (V.holds version.old) zone → IfOk result (λ n. n ≡ record_count zone) }
    ensures ok { (zone : Version) → Shows (V.holds version.old) zone → OnOk result (out.new.items ≡ out.old.items ++ flat_map row_text (all_rows zone)) }
    ensures kept { StartsWith out.new.items out.old.items }
{
    let text = replace(out, Vec::new(alloc));
    let mut sink = TextSink { text, faults: 0 };
    let result = dump_lines(alloc, version, None, item, &mut sink);
    *out = sink.text;
    match result {
        Ok(count) => Ok(count),
        Err(_) => Err(AllocError),
    }
}

//! A zone that was read, written as a master file.
ghost use Rattle.std.specs.Prelude.{◌≡◌, ◌+◌, ◌≤◌, [], length, take, IfOk, IfSome, IsNone, OnOk, OnErr};
ghost use Rattle.zone_dump.specs.Prelude.{Grows, GrowsByFront, SaysEntry, item_limit, owned, record_count, version_lines, soa_ttl, dump, PassesOn, TellsFault};
ghost use Rattle.zone_dump.specs.Prelude.{directives_in};

use crate::lines::Lines;
use crate::refusal::DumpRefusal;
use dns_name::Name;
use master_file::{LentItems, Zone};
use outer_io::Sink;
use rr_data::{Directives, ItemView, SOA, item_buffer};
use std::alloc::Global;
use zone_model::Style;

/// Lays down the item of a name in a buffer that is lent, and gives its length; None where the name isn't there.
fn find_item(mut left: LentItems<'_>, name: &Name, item: &mut [u8]) -> Option<usize>
    requires { item_limit ≤ length item.old }
    ensures within { IfSome result (λ len. len ≤ length item.new) }
    ensures found { IfSome result (λ len. SaysEntry name.now (take len item.new) (owned name.now left.entry)) }
    ensures none { IsNone result → owned name.now left.entry ≡ [] }
{
    'names: while let Some(len) = left.next(item) {
        let Some(owner) = Name::from_wire(&item[..len]) else {
            unreachable!() // an item begins with its owner
        };
        if *name == owner {
            return Some(len);
        }
    }
    None
}

/// The time to live of the SOA at a zone's origin; 0 where there is none.
fn soa_ttl(zone: &Zone, item: &mut [u8]) -> u32
    requires { item_limit ≤ length item.old }
    ensures { result ≡ soa_ttl zone.now.origin zone.now.pairs }
{
    let origin = zone.origin();
    let Some(len) = find_item(zone.items(), origin, item) else {
        return 0;
    };
    match ItemView::of(origin, &item[..len]).find_set(SOA) {
        Some(soa) => soa.ttl(),
        None => 0,
    }
}

/// The directives that a zone's dump in this style stands under.
fn directives_of(zone: &Zone, style: Style, item: &mut [u8]) -> Option<Directives>
    requires { item_limit ≤ length item.old }
    ensures { result ≡ directives_in style zone.now.origin zone.now.pairs }
{
    match style {
        Style::Full => None,
        Style::Short => Some(Directives::new(zone.origin(), soa_ttl(zone, item))),
    }
}

/// Adds the lines of all names. Each one's item is laid down in a buffer that is lent.
fn push_names<K: Sink>(
    mut left: LentItems<'_>,
    item: &mut [u8],
    lines: &mut Lines,
    sink: &mut K,
) -> Result<(), DumpRefusal>
    requires { item_limit ≤ length item.old }
    ensures count { OnOk result (lines.new.count ≡ lines.old.count + record_count left.entry) }
    ensures passes { PassesOn result (K.held sink.old) (K.held sink.new) lines.old.text.items lines.new.text.items
        (version_lines lines.old.directives left.entry) }
    ensures faults { TellsFault result (K.faults sink.old) (K.faults sink.new) }
{
    'names: while let Some(len) = left.next(item) {
        lines.push_item(&item[..len], sink)?;
    }
    Ok(())
}

/// Writes a zone that was read to a sink, as a master file, and tells how many records it has. It goes from name to name in the
/// zone as it was read: no index is made. The style [`Style::Short`] needs of the zone what it needs in [`crate::dump_to`].
/// With a refusal the sink has taken a front of the file.
pub fn dump_zone<K: Sink>(
    alloc: Global,
    zone: &Zone,
    style: Style,
    sink: &mut K,
) -> Result<u64, DumpRefusal>
    ensures count { IfOk result (λ n. n ≡ record_count zone.now.pairs) }
    ensures ok { OnOk result (Grows (K.held sink.old) (K.held sink.new) (dump style zone.now.origin zone.now.pairs)) }
    ensures err { OnErr result (GrowsByFront (K.held sink.old) (K.held sink.new) (dump style zone.now.origin zone.now.pairs)) }
    ensures faults { TellsFault result (K.faults sink.old) (K.faults sink.new) }
{
    let mut item = item_buffer(alloc)?;
    let directives = directives_of(zone, style, &mut item);
    let mut lines = Lines::new(alloc, directives)?;
    push_names(zone.items(), &mut item, &mut lines, sink)?;
    lines.finish(sink)
}

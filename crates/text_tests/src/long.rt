//! Names with as many octets as there may be, and one more.
ghost use Rattle.std.specs.Prelude.{◌≤◌, length};
ghost use Rattle.zone_model.specs.Records.{item_limit};

use dns_name::Name;
use master_file::{IntoItems, read_zone};
use rr_data::item_buffer;
use std::alloc::Global;
use std::test::Fail;
use zone_model::ZoneKind;
use zone_text::ZoneRefusal;

// How many octets the second item has, if it ends as the data does.
fn second_len(items: &mut IntoItems, octets: &mut [u8]) -> Option<usize>
    requires { item_limit ≤ length octets.old }
{
    let _first = items.next(octets);
    let len = items.next(octets)?;
    octets[..len].ends_with(b"**").then_some(len)
}

// How many octets the second name of a zone has, or the line in which they are too many. Its data is the octet 2a so many times,
// and other lines come behind.
fn second_name(alloc: Global, octets: usize, behind: &str) -> Result<Result<usize, u32>, Fail> {
    let digits = "2a".repeat(alloc, octets)?;
    let front = "$TTL 60\n@ SOA ns hm 1 2 3 4 5\nt TYPE65280";
    let text = format!(in alloc; "{front} \\# {octets} {digits}\n{behind}")?;
    if text.len() > 200_000 {
        return Err(Fail::from("a long text"));
    }
    let origin = Name::read(b"example.", &Name::root())?;
    let mut item = item_buffer(alloc)?;
    match read_zone(alloc, text.as_bytes(), &origin) {
        Ok(zone) => Ok(Ok(second_len(&mut zone.into_items(), &mut item).ok_or("no item")?)),
        Err(
            ZoneRefusal {
                line,
                kind: ZoneKind::LongEntry,
            },
        ) => Ok(Err(line)),
        Err(refusal) => Err(Fail::from(refusal)),
    }
}

#[test]
fn a_name_has_at_most_65_535_octets(rt: HostRuntime) -> Result<(), Fail> {
    for (octets, behind, want) in [
        (65_512, "", Ok(65_535)),
        (65_513, "", Err(3)),
        (65_512, " TYPE65280 (\n\\# 0 )\n", Err(5)),
    ] {
        assert_eq!(rt; second_name(rt.alloc(), octets, behind)?, want);
    }
    Ok(())
}

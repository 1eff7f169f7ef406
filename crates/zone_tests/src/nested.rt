//! Two zones, of which one lies below the other: names go to the upper one while the lower one is taken out.
ghost use Rattle.std.specs.Prelude.{◌≡◌, [], All, Some, length, slice_get};
ghost use Rattle.std.specs.List.{IsDistinct};
ghost use Rattle.zone_model.specs.Names.{same_name};
ghost use Rattle.zone_table.specs.Openings.{origins_of};
ghost use Rattle.zone_table.specs.Passes.{IsPassOf};

use crate::flat::Flat;
use dns_name::Name;
use qp_multi::{Blank, Named};
use std::alloc::Global;
use std::marker::Brand;
use std::sync::Wait;
use std::test::Fail;
use zone_table::{Located, TableLaw, TableRefusal, ZoneItems, Zones, ZonesPass};

/// What was found and refused, step by step.
#[derive(Clone, Copy, PartialEq, Eq, Debug)]
struct Steps {
    first: Located,
    exists: Option<TableRefusal>,
    without: Located,
    missing: Option<TableRefusal>,
    again: Located,
}

/// The lower zone is attached, taken out, taken out again, and put back; a name that is in both zones is located between these.
fn walk<N: Named, R: Wait>(
    rt: &R,
    zones: &Zones<Flat, N>,
    pass: &mut ZonesPass<N>,
    name: &Name,
) -> Steps
    requires pass { IsPassOf zones.now.origins.items pass.old }
    requires two { length zones.now.origins.items ≡ 2 }
{
    let first = pass.locate(zones, name);
    let exists = zones.attach(rt, pass, 1).err();
    let _ = zones.detach(rt, pass, 1);
    let without = pass.locate(zones, name);
    let missing = zones.detach(rt, pass, 1).err();
    let _ = zones.attach(rt, pass, 1);
    let again = pass.locate(zones, name);
    Steps {
        first,
        exists,
        without,
        missing,
        again,
    }
}

/// The same of zones that are opened with one pass, each without an item.
fn run<N: Named, R: Wait>(
    rt: &R,
    alloc: Global,
    table: Blank<TableLaw>,
    first: Blank<Flat>,
    second: Blank<Flat>,
    items: &[ZoneItems],
    name: &Name,
) -> Option<Steps>
    requires table_named { slice_get N.tables 0 ≡ Some table.shared.table.shared.table_id }
    requires first_named { slice_get N.tables 1 ≡ Some first.shared.table.shared.table_id }
    requires second_named { slice_get N.tables 2 ≡ Some second.shared.table.shared.table_id }
    requires chunks { table.shared.table.shared.key.chunks ≡ 512 }
    requires table_pass { table.shared.table.shared.key.passes ≡ 1 }
    requires first_pass { first.shared.table.shared.key.passes ≡ 1 }
    requires second_pass { second.shared.table.shared.key.passes ≡ 1 }
    requires two { length items.now ≡ 2 }
    requires different { IsDistinct same_name (origins_of items.now) }
    requires empty { All (λ z. z.items.items ≡ []) items.now }
{
    let mut blanks = Vec::new(alloc);
    blanks.push(first).ok()?;
    blanks.push(second).ok()?;
    let Ok((zones, mut passes)) = Zones::<Flat, N>::open(alloc, table, blanks, items) else {
        return None;
    };
    let mut pass = passes.pop()?;
    Some(walk(rt, &zones, &mut pass, name))
}

/// The same of two origins.
fn play<R: Wait>(rt: &R, alloc: Global, upper: Name, lower: Name, name: &Name) -> Option<Steps> {
    if upper == lower {
        return None;
    }
    let items = [
        ZoneItems {
            origin: upper,
            items: Vec::new(alloc),
        },
        ZoneItems {
            origin: lower,
            items: Vec::new(alloc),
        },
    ];
    let Ok(table) = Blank::<TableLaw>::new(alloc, 512, 1) else {
        return None;
    };
    let first = Blank::<Flat>::new(alloc, 16, 1).ok()?;
    let second = Blank::<Flat>::new(alloc, 16, 1).ok()?;
    run::<Brand, _>(rt, alloc, table, first, second, &items, name)
}

/// What is found: the lower zone but where it is taken out, which is refused twice.
fn expected() -> Steps {
    Steps {
        first: Located {
            version: 0,
            zone: Some(1),
        },
        exists: Some(TableRefusal::Exists { version: 0 }),
        without: Located {
            version: 1,
            zone: Some(0),
        },
        missing: Some(TableRefusal::Missing { version: 1 }),
        again: Located {
            version: 2,
            zone: Some(1),
        },
    }
}

#[test]
fn the_root_and_a_zone_below_it(rt: HostRuntime) -> Result<(), Fail> {
    let root = Name::root();
    let lower = root.star();
    if let Some(lower) = lower {
        assert_eq!(rt;
            play(&rt, rt.alloc(), root, lower, &lower),
            Some(expected())
        );
    }
    Ok(())
}

//! How the zones and their table end.
ghost use Rattle.std.specs.Prelude.{◌≡◌, ◌+◌, ◌<◌, [], ℕ, All, IfOk, OnOk, length, map, slice_index};
ghost use Rattle.zone_table.specs.Prelude.{IsPassOf, table_known, AreAdded, AreEnded, AreSplit, CanEnd, EachEnds, IsEnd};

use crate::pass::ZonesPass;
use crate::zones::Zones;
use qp_multi::{Index, Law, Named, Pass};
use std::alloc::{AllocError, Global};

// So many lists without any pass.
fn no_passes<N: Named>(alloc: Global, count: usize) -> Result<Vec<Vec<Pass<N>>>, AllocError>
    ensures count { IfOk result (λ lists. length lists.items ≡ count) }
    ensures none { IfOk result (λ lists. All (λ l. l.items ≡ []) lists.items) }
{
    let mut lists = Vec::with_capacity(alloc, count)?;
    while lists.len() < count {
        lists.push(Vec::new(alloc))?;
    }
    Ok(lists)
}

// Adds each pass to the list at its place.
fn add_passes<N: Named>(
    lists: &mut Vec<Vec<Pass<N>>>,
    passes: Vec<Pass<N>>,
) -> Result<(), AllocError>
    requires { length passes.items ≡ length lists.old.items }
    ensures { OnOk result (AreAdded lists.old.items lists.new.items passes.items) }
{
    let mut passes = passes;
    while let Some(pass) = passes.pop() {
        let zone = passes.len();
        lists[zone].push(pass)?;
    }
    Ok(())
}

// The passes of the table, and those of each zone.
fn split_passes<N: Named>(
    alloc: Global,
    count: usize,
    passes: Vec<ZonesPass<N>>,
) -> Result<(Vec<Pass<N>>, Vec<Vec<Pass<N>>>), AllocError>
    requires { All (λ p. length p.zones.items ≡ count) passes.items }
    ensures tables { IfOk result (λ made. made.0.items ≡ map (λ p. p.table) passes.items) }
    ensures zones { IfOk result (λ made. AreSplit count passes.items made.1.items) }
{
    let mut passes = passes;
    let Some(last) = passes.pop() else {
        let lists = no_passes(alloc, count)?;
        return Ok((Vec::new(alloc), lists));
    };
    let ZonesPass { table, zones, .. } = last;
    let (mut tables, mut lists) = split_passes(alloc, count, passes)?;
    tables.push(table)?;
    add_passes(&mut lists, zones)?;
    Ok((tables, lists))
}

// Ends the zones. Their numbers stand behind the first.
fn close_each<L: Law, N: Named>(
    first: u64,
    zones: Vec<Index<L, N>>,
    lists: Vec<Vec<Pass<N>>>,
) -> [u64; 17]
    requires { CanEnd zones.items lists.items }
    ensures first { slice_index result 0 ≡ first }
    ensures ends { AreEnded zones.items lists.items result }
    ensures rest { (k : ℕ) → length zones.items < k → slice_index result k ≡ 0 }
{
    let mut zones = zones;
    let mut lists = lists;
    let Some(zone) = zones.pop() else {
        let mut numbers = [0; 17];
        numbers[0] = first;
        return numbers;
    };
    let Some(passes) = lists.pop() else {
        // There is a list for each zone.
        unreachable!()
    };
    let place = zones.len() + 1;
    let number = zone.close(passes);
    let mut numbers = close_each(first, zones, lists);
    numbers[place] = number;
    numbers
}

impl<L: Law, N: Named> Zones<L, N> {
    /// Ends the table and the zones. Tells the number of each one's current version, the table's first and then the zones' in the order of their
    /// numbers, and 0 in the places left.
    pub fn close(self, alloc: Global, passes: Vec<ZonesPass<N>>) -> Result<[u64; 17], AllocError>
        requires { All (IsPassOf self.origins.items) passes.items }
        ensures table { IfOk result
            (λ numbers. IsEnd self.table.shared.table.shared.key.passes (map (λ p. table_known p) passes.items) (slice_index numbers 0)) }
        ensures zones { IfOk result (λ numbers. EachEnds self.zones.items passes.items numbers) }
        ensures rest { IfOk result (λ numbers. (k : ℕ) → length self.zones.items < k → slice_index numbers k ≡ 0) }
    {
        let Zones { table, zones, .. } = self;
        let (tables, lists) = split_passes(alloc, zones.len(), passes)?;
        let first = table.close(tables);
        Ok(close_each(first, zones, lists))
    }
}

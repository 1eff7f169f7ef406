//! The passes of the table and of the zones, put together.
ghost use Rattle.std.specs.Prelude.{◌≡◌, [], All, IfOk, None, OnOk, length, map};
ghost use Rattle.zone_table.specs.Handings.{AreHandedOut, IsGrid};

use crate::opening::Opened;
use crate::pass::ZonesPass;
use crate::remembered::Remembered;
use qp_multi::{Index, Law, Named, Pass};
use std::alloc::{AllocError, Global};

// Passes of the table, without any of a zone yet.
fn table_passes<N: Named>(
    alloc: Global,
    passes: Vec<Pass<N>>,
) -> Result<Vec<ZonesPass<N>>, AllocError>
    ensures tables { IfOk result (λ all. map (λ p. p.table) all.items ≡ passes.items) }
    ensures none { IfOk result (λ all. All (λ p. p.zones.items ≡ []) all.items) }
    ensures nothing { IfOk result (λ all. All (λ p. p.remembered.version ≡ None) all.items) }
{
    let mut passes = passes;
    let mut all = Vec::with_capacity(alloc, passes.len())?;
    while let Some(pass) = passes.pop() {
        all.insert(
            0,
            ZonesPass {
                table: pass,
                zones: Vec::new(alloc),
                remembered: Remembered::nothing(),
            },
        )?;
    }
    Ok(all)
}

// Each gets its pass of one zone more.
fn hand_out<N: Named>(all: &mut Vec<ZonesPass<N>>, passes: Vec<Pass<N>>) -> Result<(), AllocError>
    requires { length passes.items ≡ length all.old.items }
    ensures { OnOk result (AreHandedOut all.old.items all.new.items passes.items) }
{
    let mut passes = passes;
    while let Some(pass) = passes.pop() {
        let place = passes.len();
        all[place].zones.push(pass)?;
    }
    Ok(())
}

/// The indexes of zones that were opened, and the passes of these and of the table.
pub fn hand_out_all<L: Law, N: Named>(
    alloc: Global,
    tables: Vec<Pass<N>>,
    opened: Vec<Opened<L, N>>,
) -> Result<(Vec<Index<L, N>>, Vec<ZonesPass<N>>), AllocError>
    requires { All (λ o. length o.passes.items ≡ length tables.items) opened.items }
    ensures indexes { IfOk result (λ made. made.0.items ≡ map (λ o. o.index) opened.items) }
    ensures passes { IfOk result (λ made. IsGrid tables.items (map (λ o. o.passes.items) opened.items) made.1.items) }
{
    let mut opened = opened;
    let Some(last) = opened.pop() else {
        let all = table_passes(alloc, tables)?;
        return Ok((Vec::new(alloc), all));
    };
    let Opened { index, passes } = last;
    let (mut indexes, mut all) = hand_out_all(alloc, tables, opened)?;
    indexes.push(index)?;
    hand_out(&mut all, passes)?;
    Ok((indexes, all))
}

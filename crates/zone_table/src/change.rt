//! Changes of the table: an origin is put in, or taken out.
ghost use Rattle.std.specs.Prelude.{◌≡◌, Ok, Err, IfOk, IfSome, MatchResult, slice_get};
ghost use Rattle.zone_table.specs.Prelude.{IsPassOf, HasZone, table_known, Attaches, Detaches, IsReceipt};

use crate::pass::ZonesPass;
use crate::zones::Zones;
use qp_multi::{ChangeRefusal, InsertRefusal, Law, Named, Receipt, Spent, WriteGuard};
use shift_key::Key;
use std::sync::Wait;
use thiserror::Error;

/// Why the table isn't changed. The number is that of its version then.
#[derive(Clone, Copy, PartialEq, Eq, Debug, Error)]
pub enum TableRefusal {
    /// The version has the origin.
    #[error("version {version} has the origin")]
    Exists { version: u64 },
    /// The version hasn't the origin.
    #[error("version {version} hasn't the origin")]
    Missing { version: u64 },
    /// There is no next version.
    #[error("there is no version after {version}")]
    Spent { version: u64 },
}

// How a change ends that was to be committed.
fn committed(receipt: Result<Receipt, Spent>) -> Result<Receipt, TableRefusal>
    ensures { MatchResult receipt (λ r. result ≡ Ok r) (λ s. result ≡ Err (TableRefusal.Spent s.version)) }
{
    match receipt {
        Ok(receipt) => Ok(receipt),
        Err(spent) => Err(TableRefusal::Spent {
            version: spent.version,
        }),
    }
}

impl<L: Law, N: Named> Zones<L, N> {
    /// Waits for the table's turn, and puts the origin of a zone in. The zone's own index isn't touched.
    pub fn attach<R: Wait>(
        &self,
        rt: &R,
        pass: &mut ZonesPass<N>,
        zone: u32,
    ) -> Result<Receipt, TableRefusal>
        requires { HasZone self.now.origins.items zone pass.old }
        ensures pass { IsPassOf self.now.origins.items pass.new }
        ensures others { pass.new.zones ≡ pass.old.zones }
        ensures attaches { IfSome (slice_get self.now.origins.items zone) (λ origin. Attaches origin (table_known pass.old) (table_known pass.new) result) }
        ensures receipt { IfOk result (IsReceipt (table_known pass.old) (table_known pass.new)) }
    {
        let origin = &self.origins[zone as usize];
        let mut locked = WriteGuard::of(&self.table);
        let mut write = self.table.write(rt, &mut locked, &mut pass.table);
        let version = write.version();
        match write.insert(&Key::of(origin), origin.wire()) {
            Ok(()) => committed(write.commit()),
            Err(InsertRefusal::Exists) => Err(TableRefusal::Exists { version }),
            // The table has room for each of its versions and one operation.
            Err(InsertRefusal::Full(_)) => unreachable!(),
        }
    }

    /// Waits for the table's turn, and takes the origin of a zone out. The zone's own index isn't touched.
    pub fn detach<R: Wait>(
        &self,
        rt: &R,
        pass: &mut ZonesPass<N>,
        zone: u32,
    ) -> Result<Receipt, TableRefusal>
        requires { HasZone self.now.origins.items zone pass.old }
        ensures pass { IsPassOf self.now.origins.items pass.new }
        ensures others { pass.new.zones ≡ pass.old.zones }
        ensures detaches { IfSome (slice_get self.now.origins.items zone) (λ origin. Detaches origin (table_known pass.old) (table_known pass.new) result) }
        ensures receipt { IfOk result (IsReceipt (table_known pass.old) (table_known pass.new)) }
    {
        let origin = &self.origins[zone as usize];
        let mut locked = WriteGuard::of(&self.table);
        let mut write = self.table.write(rt, &mut locked, &mut pass.table);
        let version = write.version();
        match write.delete(&Key::of(origin)) {
            Ok(()) => committed(write.commit()),
            Err(ChangeRefusal::NotFound) => Err(TableRefusal::Missing { version }),
            // The table has room for each of its versions and one operation.
            Err(ChangeRefusal::Full(_)) => unreachable!(),
        }
    }
}

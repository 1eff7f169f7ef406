//! Operations that are kept.
ghost use Rattle.std.specs.Prelude.{◌≡◌, ◌≤◌, ◌++◌, ◌∷◌, [], length, map, IfOk, OnOk};
ghost use Rattle.zone_reload.specs.Prelude.{IsShort, change_view, operation_view};

use dns_name::Name;
use rr_data::Rdata;
use std::alloc::{AllocError, Global};
use zone_change::{NewRecord, Operation};
use zone_diff::{Change, OperationSink};

/// The operations of a difference, as a transaction takes them.
#[derive(Drop)]
pub struct OperationList {
    pub operations: Vec<Operation>,
}

// A copy of a record's octets.
fn rdata_of(alloc: Global, octets: &[u8]) -> Result<Rdata, AllocError>
    requires { length octets.now ≤ 65535 }
    ensures { IfOk result (λ r. r ≡ octets.now) }
{
    Ok(Rdata::new(Vec::from_slice(alloc, octets)?))
}

// An operation on a name.
fn operation_of(alloc: Global, owner: &Name, change: &Change<'_>) -> Result<Operation, AllocError>
    requires { IsShort change.now }
    ensures { IfOk result (λ o. operation_view o ≡ change_view owner.now change.now) }
{
    match *change {
        Change::Comes { rtype, ttl, octets } => Ok(Operation::Add(NewRecord {
            owner: *owner,
            rtype,
            ttl,
            rdata: rdata_of(alloc, octets)?,
        })),
        Change::Goes => Ok(Operation::DeleteName(*owner)),
        Change::SetGoes { rtype } => Ok(Operation::DeleteSet(*owner, rtype)),
        Change::RecordGoes { rtype, octets } => {
            let rdata = rdata_of(alloc, octets)?;
            Ok(Operation::DeleteRecord(*owner, rtype, rdata))
        }
    }
}

impl OperationList {
    /// No operations.
    pub fn new(alloc: Global) -> Self
        ensures { result.operations.items ≡ [] }
    {
        OperationList {
            operations: Vec::new(alloc),
        }
    }
}

impl OperationSink for OperationList {
    ghost use Rattle.std.specs.Prelude.{◌≡◌, map};
    ghost use Rattle.zone_change.specs.Views.{operation_view};

    ghost has = { λ s aim operations. map operation_view s.operations.items ≡ operations };

    fn push(&mut self, owner: &Name, change: &Change<'_>) -> Result<(), AllocError> {
        let alloc = *self.operations.allocator();
        let operation = operation_of(alloc, owner, change)?;
        self.operations.push(operation)?;
        Ok(())
    }
}

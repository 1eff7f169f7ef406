//! Operations of a block.
ghost use Rattle.std.specs.Prelude.{◌≡◌};
ghost use Rattle.zone_change.specs.Prelude.{operation_view, owner_of};

use dns_name::Name;
use rr_data::Rdata;

/// A record with its owner.
#[derive(Drop)]
pub struct NewRecord {
    pub owner: Name,
    pub rtype: u16,
    pub ttl: u32,
    pub rdata: Rdata,
}

/// A change of one name.
#[derive(Drop)]
pub enum Operation {
    /// A record joins its RRset; an SOA takes the place of the zone's.
    Add(NewRecord),
    /// All records of a name leave.
    DeleteName(Name),
    /// The RRset of a type leaves.
    DeleteSet(Name, u16),
    /// One record leaves.
    DeleteRecord(Name, u16, Rdata),
}

impl Operation {
    /// The name that it changes.
    pub fn owner(&self) -> &Name
        ensures { result.now ≡ owner_of (operation_view self.now) }
    {
        match self {
            Operation::Add(record) => &record.owner,
            Operation::DeleteName(owner) => owner,
            Operation::DeleteSet(owner, _) => owner,
            Operation::DeleteRecord(owner, _, _) => owner,
        }
    }
}

//! Records as a message has them.
ghost use Rattle.std.specs.Prelude.{◌≡◌, ◌≤◌, ◌++◌, OnOk, length};
ghost use Rattle.zone_server.specs.Prelude.{wire_row, wire_rows};

use dns_name::Name;
use rr_data::SetView;
use std::alloc::{AllocError, Global};
use std::marker::Model;
use zone_answer::RowSink;

// The class IN (RFC 1035, section 3.2.4).
const CLASS: [u8; 2] = [0, 1];

/// Takes records in the form that a message has them in (RFC 1035, section 4.1.3), one behind the other, with no name compressed. Contracts
/// see the octets. Where memory is wanting it may have a front of a record, and is to be dropped.
#[derive(Drop)]
pub struct WireRows {
    octets: Vec<u8>,
}

impl Model for WireRows {
    ghost use Rattle.std.specs.Prelude.{List, ℕ};

    ghost Value = { List ℕ };

    ghost view = { λ w. w.octets.items };
}

// Puts one record behind the octets.
fn push_row(
    out: &mut Vec<u8>,
    owner: &Name,
    rtype: u16,
    ttl: u32,
    octets: &[u8],
) -> Result<(), AllocError>
    requires { length octets.now ≤ 65535 }
    ensures { OnOk result (out.new.items ≡ out.old.items ++ wire_row (record { owner = owner.now; rtype = rtype; ttl = ttl; octets = octets.now })) }
{
    let len = octets.len() as u16;
    out.extend_from_slice(owner.wire())?;
    out.extend_from_slice(&rtype.to_be_bytes())?;
    out.extend_from_slice(&CLASS)?;
    out.extend_from_slice(&ttl.to_be_bytes())?;
    out.extend_from_slice(&len.to_be_bytes())?;
    out.extend_from_slice(octets)
}

impl WireRows {
    ghost use Rattle.std.specs.Prelude.{[]};

    /// Without a record.
    pub fn new(alloc: Global) -> WireRows
        ensures { result ≡ [] }
    {
        WireRows {
            octets: Vec::new(alloc),
        }
    }

    pub fn octets(&self) -> &[u8]
        ensures { result.now ≡ self.now }
    {
        &self.octets
    }
}

impl RowSink for WireRows {
    ghost has = { λ w rows. w ≡ wire_rows rows };

    #[tactic(auto, using(crate::proofs::WireLaws::wire_more))]
    fn push(&mut self, _alloc: Global, owner: &Name, set: &SetView<'_>) -> Result<(), AllocError> {
        let mut records = set.records();
        while let Some(octets) = records.next() {
            push_row(&mut self.octets, owner, set.rtype(), set.ttl(), octets)?;
        }
        Ok(())
    }
}

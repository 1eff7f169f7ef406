//! Records with their owners.

ghost use Rattle.std.specs.Prelude.{◌≡◌, ◌++◌, ◌≤◌, [], length, map, OnOk};
ghost use Rattle.zone_model.specs.Rows.{rows_of};

use crate::sink::RowSink;
use dns_name::Name;
use rr_data::{Rdata, SetView};
use std::alloc::{AllocError, Global};
use std::marker::Model;

/// A record with its owner, and its time to live in seconds.
#[derive(Drop)]
pub struct Row {
    pub owner: Name,
    pub rtype: u16,
    pub ttl: u32,
    pub rdata: Rdata,
}

/// Records with their owners, as they were gathered. Contracts see the list of them.
#[derive(Drop)]
pub struct Rows {
    list: Vec<Row>,
}

impl Model for Rows {
    ghost use Rattle.std.specs.Prelude.{List};
    ghost use Rattle.zone_model.specs.Rows.{Row};
    ghost use Rattle.zone_answer.specs.Parts.{rows_in};

    ghost Value = { List Row };

    ghost view = { λ r. rows_in r.list.items };
}

impl Rows {
    ghost use Rattle.zone_answer.specs.Parts.{rows_in};

    /// None.
    pub fn new(alloc: Global) -> Rows
        ensures { result ≡ [] }
    {
        Rows {
            list: Vec::new(alloc),
        }
    }

    pub fn as_slice(&self) -> &[Row]
        ensures { rows_in result.now ≡ self.now }
    {
        &self.list
    }
}

impl RowSink for Rows {
    ghost has = { λ r rows. r ≡ rows };

    fn push(&mut self, alloc: Global, owner: &Name, set: &SetView<'_>) -> Result<(), AllocError> {
        let mut records = set.records();
        while let Some(octets) = records.next() {
            self.list.push(Row {
                owner: *owner,
                rtype: set.rtype(),
                ttl: set.ttl(),
                rdata: Rdata::new(Vec::from_slice(alloc, octets)?),
            })?;
        }
        Ok(())
    }
}

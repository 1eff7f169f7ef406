//! The rows of a response on their way to a sink.

ghost use Rattle.std.specs.Prelude.{◌≡◌, [], length, if◌then◌else◌, ◌==◌, Some};
ghost use Rattle.zone_answer.specs.Prelude.{AreCounted, Row, Labels, cname_type};

use crate::sink::RowSink;
use dns_name::Name;
use rr_data::{CNAME, SetView};
use std::alloc::{AllocError, Global};

/// A sink, and what is known of the rows of one response that were handed on to it: how many, how many of them are aliases, and whose came last.
#[derive(Drop)]
pub struct Sections<S: Drop> {
    pub rows: S,
    pub(crate) count: u64,
    pub(crate) aliases: u64,
    pub(crate) last: Option<Name>,
}

impl<S: Drop> Sections<S> {
    /// Nothing was handed on.
    pub fn new(rows: S) -> Sections<S>
        ensures { result.rows ≡ rows }
    {
        Sections {
            rows,
            count: 0,
            aliases: 0,
            last: None,
        }
    }
}

/// How many of the records of an RRset are aliases.
fn aliases_in(set: &SetView<'_>) -> u64
    ensures { result ≡ (if set.now.rtype == cname_type then length set.now.records else 0) }
{
    if set.rtype() == CNAME {
        u64::from(set.len())
    } else {
        0
    }
}

impl<S: RowSink + Drop> Sections<S> {
    /// Begins a response. What the sink has stays.
    pub(crate) fn begin(&mut self)
        ensures kept { self.new.rows ≡ self.old.rows }
        ensures none { S.has self.old.rows [] → AreCounted (S.has self.new.rows) self.new.count self.new.aliases self.new.last [] }
    {
        self.count = 0;
        self.aliases = 0;
        self.last = None;
    }
}

impl<S: RowSink + Drop> RowSink for Sections<S> {
    ghost use Rattle.zone_answer.specs.Sections.{AreCounted};

    ghost has = { λ s rows. AreCounted (S.has s.rows) s.count s.aliases s.last rows };

    // More of them than 64 bits count are taken for want of memory.
    fn push(&mut self, alloc: Global, owner: &Name, set: &SetView<'_>) -> Result<(), AllocError> {
        let Some(count) = self.count.checked_add(u64::from(set.len())) else {
            return Err(AllocError);
        };
        let Some(aliases) = self.aliases.checked_add(aliases_in(set)) else {
            return Err(AllocError);
        };
        self.rows.push(alloc, owner, set)?;
        self.count = count;
        self.aliases = aliases;
        if set.len() == 0 {
            return Ok(());
        }
        self.last = Some(*owner);
        Ok(())
    }
}

//! The lines of a dump, on their way to a sink.
ghost use Rattle.std.specs.Prelude.{◌≡◌, ◌+◌, ◌∷◌, [], ℕ, List, length, Option, IfOk, OnOk, OnErr};
ghost use Rattle.zone_dump.specs.Prelude.{Grows, GrowsByFront, Labels, Entry, IsItem, rows_of, OfItem, PassesItem, PassesOn, TellsFault};
ghost use Rattle.zone_dump.specs.Prelude.{line_text, rows_at, head_text, lines_from};

use crate::refusal::DumpRefusal;
use crate::writing::{RESERVED, flush, flush_long};
use dns_name::Name;
use outer_io::Sink;
use rr_data::{Directives, ItemView, SetView, push_record};
use std::alloc::{AllocError, Global};

/// Lines of records that are gathered, and written once they are long.
#[derive(Drop)]
pub struct Lines {
    /// What the file begins with.
    pub directives: Option<Directives>,
    /// What was gathered, and isn't written yet.
    pub text: Vec<u8>,
    /// How many records have come.
    pub count: u64,
}

impl Lines {
    /// Those that a file begins with. The memory that lines take is reserved here.
    pub fn new(alloc: Global, directives: Option<Directives>) -> Result<Lines, AllocError>
        ensures text { IfOk result (λ lines. lines.text.items ≡ head_text directives) }
        ensures directives { IfOk result (λ lines. lines.directives ≡ directives) }
        ensures count { IfOk result (λ lines. lines.count ≡ 0) }
    {
        let mut text = Vec::with_capacity(alloc, RESERVED)?;
        if let Some(directives) = &directives {
            directives.push_text(&mut text)?;
        }
        Ok(Lines {
            directives,
            text,
            count: 0,
        })
    }

    // Adds the line of a record.
    fn push_record<K: Sink>(
        &mut self,
        first: bool,
        owner: &Name,
        set: &SetView<'_>,
        octets: &[u8],
        sink: &mut K,
    ) -> Result<(), DumpRefusal>
        ensures same { (self.new.directives ≡ self.old.directives) × (self.new.count ≡ self.old.count) }
        ensures passes { PassesOn result (K.held sink.old) (K.held sink.new) self.old.text.items self.new.text.items
            (line_text self.old.directives first (record { owner = owner.now; rtype = set.now.rtype; ttl = set.now.ttl; octets = octets.now })) }
        ensures faults { TellsFault result (K.faults sink.old) (K.faults sink.new) }
    {
        let directives = self.directives.as_ref();
        push_record(directives, first, owner, set, octets, &mut self.text)?;
        flush_long(&mut self.text, sink)?;
        Ok(())
    }

    // Adds the lines of an RRset. More records than 64 bits count are taken for want of memory.
    fn push_set<K: Sink>(
        &mut self,
        first: bool,
        owner: &Name,
        set: &SetView<'_>,
        sink: &mut K,
    ) -> Result<(), DumpRefusal>
        ensures directives { self.new.directives ≡ self.old.directives }
        ensures count { OnOk result (self.new.count ≡ self.old.count + length set.now.records) }
        ensures passes { PassesOn result (K.held sink.old) (K.held sink.new) self.old.text.items self.new.text.items
            (lines_from self.old.directives first (rows_of owner.now set.now)) }
        ensures faults { TellsFault result (K.faults sink.old) (K.faults sink.new) }
    {
        let Some(count) = self.count.checked_add(u64::from(set.len())) else {
            return Err(DumpRefusal::Memory);
        };
        let mut is_first = first;
        let mut records = set.records();
        while let Some(octets) = records.next() {
            self.push_record(is_first, owner, set, octets, sink)?;
            is_first = false;
        }
        self.count = count;
        Ok(())
    }

    /// Adds the lines of a name's records, by its item.
    pub fn push_item<K: Sink>(&mut self, item: &[u8], sink: &mut K) -> Result<(), DumpRefusal>
        requires { (owner : Labels) × (entry : Entry) × IsItem item.now owner entry }
        ensures directives { self.new.directives ≡ self.old.directives }
        ensures count { OnOk result (OfItem item.now (λ owner entry. self.new.count ≡ self.old.count + length (rows_at (owner, entry)))) }
        ensures passes { PassesItem result item.now (K.held sink.old) (K.held sink.new) self.old.text.items self.new.text.items self.old.directives }
        ensures faults { TellsFault result (K.faults sink.old) (K.faults sink.new) }
    {
        let Some(owner) = Name::from_wire(item) else {
            unreachable!() // an item begins with its owner
        };
        let mut first = true;
        let mut sets = ItemView::of(&owner, item);
        while let Some(set) = sets.next() {
            self.push_set(first, &owner, &set, sink)?;
            first = false;
        }
        Ok(())
    }

    /// Writes what is left, and tells how many records have come.
    pub fn finish<K: Sink>(mut self, sink: &mut K) -> Result<u64, DumpRefusal>
        ensures count { IfOk result (λ n. n ≡ self.count) }
        ensures ok { OnOk result (Grows (K.held sink.old) (K.held sink.new) self.text.items) }
        ensures err { OnErr result (GrowsByFront (K.held sink.old) (K.held sink.new) self.text.items) }
        ensures faults { TellsFault result (K.faults sink.old) (K.faults sink.new) }
    {
        flush(&mut self.text, sink)?;
        Ok(self.count)
    }
}

//! An RRset.
ghost use Rattle.std.specs.Prelude.{◌≡◌, ◌<◌, ◌≤◌, ◌++◌, [], length, IfOk, OnOk, OnErr, take, drop, slice_get, Some, None, IsTrue, ◌↔◌};
ghost use Rattle.rr_data.specs.Prelude.{Rrset, with_record, without_record, has_record, fresh, RisingOctets, TellsChange};

use crate::rdata::Rdata;
use std::alloc::{AllocError, Global};
use std::cmp::Ordering;
use std::marker::Model;

/// The records of one name and type. They have one time to live, in seconds.
#[derive(Drop)]
pub struct RrSet {
    rtype: u16,
    ttl: u32,
    records: Vec<Rdata>,
}

impl Model for RrSet {
    ghost use Rattle.zone_model.specs.Records.{Rrset};

    ghost Value = { Rrset };

    ghost view = { λ s. record { rtype = s.rtype; ttl = s.ttl; records = s.records.items } };
}

impl Clone for RrSet {
    ghost is_clone = { λ a b. b ≡ a };

    fn clone(&self) -> Result<RrSet, AllocError> {
        Ok(RrSet {
            rtype: self.rtype,
            ttl: self.ttl,
            records: self.records.clone()?,
        })
    }
}

// Whether one of the records has these octets.
fn has_octets(records: &[Rdata], octets: &[u8]) -> bool
    ensures { result ≡ has_record octets.now records.now }
{
    for kept in records {
        if octets.cmp(kept.octets()) == Ordering::Equal {
            return true;
        }
    }
    false
}

// An index before which all records are lower than these octets, and behind which none is.
fn start_of(records: &[Rdata], octets: &[u8]) -> usize
    requires { RisingOctets None records.now }
    ensures within { result ≤ length records.now }
    ensures lower { with_record octets.now records.now ≡ take result records.now ++ with_record octets.now (drop result records.now) }
{
    let mut at = 0;
    let mut end = records.len();
    while at < end {
        let middle = at + (end - at) / 2;
        match octets.cmp(records[middle].octets()) {
            Ordering::Greater => at = middle + 1,
            _ => end = middle,
        }
    }
    at
}

// Adds a record where it belongs, unless it is there. Answers whether it was added. The walk to its index begins right there.
fn add_record(records: &mut Vec<Rdata>, added: Rdata) -> Result<bool, AllocError>
    requires { RisingOctets None records.old.items }
    ensures ok { OnOk result (records.new.items ≡ with_record added records.old.items) }
    ensures changed { IfOk result (λ changed. TellsChange changed records.old.items records.new.items) }
    ensures err { OnErr result (records.new.items ≡ records.old.items) }
{
    let mut at = start_of(records, added.octets());
    while at < records.len() {
        match added.octets().cmp(records[at].octets()) {
            Ordering::Less => break,
            Ordering::Equal => return Ok(false),
            Ordering::Greater => at += 1,
        }
    }
    records.insert(at, added)?;
    Ok(true)
}

// Removes a record, if it is there. Answers whether it was.
fn remove_record(records: &mut Vec<Rdata>, octets: &[u8]) -> bool
    ensures value { records.new.items ≡ without_record octets.now records.old.items }
    ensures changed { TellsChange result records.old.items records.new.items }
{
    let mut at = 0;
    while at < records.len() {
        match octets.cmp(records[at].octets()) {
            Ordering::Less => return false,
            Ordering::Equal => {
                let _removed = records.remove(at);
                return true;
            }
            Ordering::Greater => at += 1,
        }
    }
    false
}

impl RrSet {
    // An RRset of these records.
    pub(crate) fn new(rtype: u16, ttl: u32, records: Vec<Rdata>) -> Self
        ensures { result ≡ record { rtype = rtype; ttl = ttl; records = records.items } }
    {
        RrSet {
            rtype,
            ttl,
            records,
        }
    }

    /// An RRset of one record.
    pub fn of(alloc: Global, rtype: u16, ttl: u32, added: Rdata) -> Result<Self, AllocError>
        ensures { IfOk result (λ s. s ≡ fresh rtype ttl added) }
    {
        let mut records = Vec::with_capacity(alloc, 1)?;
        records.push(added)?;
        Ok(RrSet {
            rtype,
            ttl,
            records,
        })
    }

    pub fn rtype(&self) -> u16
        ensures { result ≡ self.now.rtype }
    {
        self.rtype
    }

    pub fn ttl(&self) -> u32
        ensures { result ≡ self.now.ttl }
    {
        self.ttl
    }

    /// How many records it has.
    pub fn len(&self) -> usize
        ensures { result ≡ length self.now.records }
    {
        self.records.len()
    }

    pub fn is_empty(&self) -> bool
        ensures { IsTrue result ↔ (self.now.records ≡ []) }
    {
        self.records.is_empty()
    }

    /// The record at an index, in rising order of the octets.
    pub fn at(&self, index: usize) -> &Rdata
        requires { index < length self.now.records }
        ensures { slice_get self.now.records index ≡ Some result.now }
    {
        &self.records[index]
    }

    /// Whether it has a record of these octets.
    pub fn has(&self, octets: &[u8]) -> bool
        ensures { result ≡ has_record octets.now self.now.records }
    {
        has_octets(&self.records, octets)
    }

    /// All its records, in rising order of the octets.
    pub fn records(&self) -> &[Rdata]
        ensures { result.now ≡ self.now.records }
    {
        &self.records
    }

    // Adds a record, unless it is there. Answers whether it was added.
    pub(crate) fn add(&mut self, added: Rdata) -> Result<bool, AllocError>
        requires { RisingOctets None self.old.records }
        ensures ok { OnOk result (self.new ≡ record self.old { records = with_record added self.old.records }) }
        ensures changed { IfOk result (λ changed. TellsChange changed self.old self.new) }
        ensures err { OnErr result (self.new ≡ self.old) }
    {
        add_record(&mut self.records, added)
    }

    // Removes a record, if it is there. Answers whether it was.
    pub(crate) fn remove(&mut self, octets: &[u8]) -> bool
        ensures value { self.new ≡ record self.old { records = without_record octets.now self.old.records } }
        ensures changed { TellsChange result self.old self.new }
    {
        remove_record(&mut self.records, octets)
    }
}

//! A difference as text.
ghost use Rattle.std.specs.Prelude.{◌≡◌, ◌==◌, ◌<◌, ◌≤◌, ◌++◌, ◌∷◌, [], List, length, codes, IfOk, OnOk};
ghost use Rattle.zone_diff.specs.Prelude.{Aim, Begun, DeleteName, DeleteRecord, DeleteSet, Holds, HoldsFor};
ghost use Rattle.zone_diff.specs.Prelude.{IsShort, Opened, Operation, addition, adding, change_view, class, closing};
ghost use Rattle.zone_diff.specs.Prelude.{data_text, deleting, difference, line, opening, record_words, text_in, text_of, type_text};

use crate::changes::{Change, OperationSink};
use crate::names::push_difference;
use crate::{DiffStyle, Serial};
use dns_name::Name;
use master_file::Zone;
use rr_data::{Rdata, push_type};
use std::alloc::{AllocError, Global};
use zone_text::push_decimal;

// The most operations of a transaction.
const BLOCK_LIMIT: u32 = 10000;

impl DiffStyle {
    fn adding(self) -> &'static [u8]
        ensures { result.now ≡ adding self }
    {
        match self {
            DiffStyle::Script => b"add ",
            DiffStyle::Nsupdate => b"update add ",
        }
    }

    fn deleting(self) -> &'static [u8]
        ensures { result.now ≡ deleting self }
    {
        match self {
            DiffStyle::Script => b"del ",
            DiffStyle::Nsupdate => b"update delete ",
        }
    }

    fn class(self) -> &'static [u8]
        ensures { result.now ≡ class self }
    {
        match self {
            DiffStyle::Script => b"",
            DiffStyle::Nsupdate => b"IN ",
        }
    }

    fn closing(self) -> &'static [u8]
        ensures { result.now ≡ closing self }
    {
        match self {
            DiffStyle::Script => b"commit\n",
            DiffStyle::Nsupdate => b"send\n",
        }
    }

    // What begins a transaction of a zone.
    fn push_opening(self, origin: &Name, out: &mut Vec<u8>) -> Result<(), AllocError>
        ensures { OnOk result (out.new.items ≡ out.old.items ++ opening self origin.now) }
    {
        match self {
            DiffStyle::Script => out.extend_from_slice(b"update\n"),
            DiffStyle::Nsupdate => {
                out.extend_from_slice(b"zone ")?;
                origin.push_text(out)?;
                out.extend_from_slice(b"\n")
            }
        }
    }

    // A record comes.
    fn push_comes(
        self,
        owner: &Name,
        rtype: u16,
        ttl: u32,
        octets: &[u8],
        out: &mut Vec<u8>,
    ) -> Result<(), AllocError>
        requires { length octets.now ≤ 65535 }
        ensures { OnOk result (out.new.items ≡ out.old.items ++ line self (addition owner.now rtype ttl octets.now)) }
    {
        out.extend_from_slice(self.adding())?;
        owner.push_text(out)?;
        out.extend_from_slice(b" ")?;
        push_decimal(out, u64::from(ttl))?;
        out.extend_from_slice(b" ")?;
        out.extend_from_slice(self.class())?;
        push_words(rtype, octets, out)?;
        out.extend_from_slice(b"\n")
    }

    // A name goes.
    fn push_goes(self, owner: &Name, out: &mut Vec<u8>) -> Result<(), AllocError>
        ensures { OnOk result (out.new.items ≡ out.old.items ++ line self (DeleteName owner.now)) }
    {
        out.extend_from_slice(self.deleting())?;
        owner.push_text(out)?;
        out.extend_from_slice(b"\n")
    }

    // An RRset goes.
    fn push_set_goes(self, owner: &Name, rtype: u16, out: &mut Vec<u8>) -> Result<(), AllocError>
        ensures { OnOk result (out.new.items ≡ out.old.items ++ line self (DeleteSet owner.now rtype)) }
    {
        out.extend_from_slice(self.deleting())?;
        owner.push_text(out)?;
        out.extend_from_slice(b" ")?;
        out.extend_from_slice(self.class())?;
        push_type(rtype, out)?;
        out.extend_from_slice(b"\n")
    }

    // A record goes.
    fn push_record_goes(
        self,
        owner: &Name,
        rtype: u16,
        octets: &[u8],
        out: &mut Vec<u8>,
    ) -> Result<(), AllocError>
        requires { length octets.now ≤ 65535 }
        ensures { OnOk result (out.new.items ≡ out.old.items ++ line self (DeleteRecord owner.now rtype octets.now)) }
    {
        out.extend_from_slice(self.deleting())?;
        owner.push_text(out)?;
        out.extend_from_slice(b" ")?;
        out.extend_from_slice(self.class())?;
        push_words(rtype, octets, out)?;
        out.extend_from_slice(b"\n")
    }

    // A line of an operation.
    fn push_line(
        self,
        owner: &Name,
        change: &Change<'_>,
        out: &mut Vec<u8>,
    ) -> Result<(), AllocError>
        requires { IsShort change.now }
        ensures { OnOk result (out.new.items ≡ out.old.items ++ line self (change_view owner.now change.now)) }
    {
        match *change {
            Change::Comes { rtype, ttl, octets } => {
                self.push_comes(owner, rtype, ttl, octets, out)
            }
            Change::Goes => self.push_goes(owner, out),
            Change::SetGoes { rtype } => self.push_set_goes(owner, rtype, out),
            Change::RecordGoes { rtype, octets } => {
                self.push_record_goes(owner, rtype, octets, out)
            }
        }
    }
}

// A type and data of it.
fn push_words(rtype: u16, octets: &[u8], out: &mut Vec<u8>) -> Result<(), AllocError>
    requires { length octets.now ≤ 65535 }
    ensures { OnOk result (out.new.items ≡ out.old.items ++ record_words rtype octets.now) }
{
    push_type(rtype, out)?;
    out.extend_from_slice(b" ")?;
    let rdata = Rdata::new(Vec::from_slice(*out.allocator(), octets)?);
    rdata.push_text(rtype, out)
}

/// The text of operations, in transactions.
#[derive(Drop)]
pub struct DiffText {
    style: DiffStyle,
    origin: Name,
    out: Vec<u8>,
    /// How many operations the transaction at hand has room for; 0 where none is begun.
    room: u32,
}

impl DiffText {
    /// The text of no operations.
    pub fn new(alloc: Global, style: DiffStyle, origin: &Name) -> Self
        ensures { HoldsFor result.style result.origin result.out.items result.room (record { style = style; origin = origin.now }) [] }
    {
        DiffText {
            style,
            origin: *origin,
            out: Vec::new(alloc),
            room: 0,
        }
    }

    // Begins a transaction, unless one is begun.
    fn begin(&mut self) -> Result<(), AllocError>
        ensures same { (self.new.style ≡ self.old.style) × (self.new.origin ≡ self.old.origin) }
        ensures room { OnOk result (0 < self.new.room) }
        ensures begun { OnOk result ((operations : List Operation) → Holds self.old.style self.old.origin self.old.out.items self.old.room operations
            → Opened self.old.style self.old.origin self.new.out.items self.new.room operations) }
    {
        if self.room > 0 {
            return Ok(());
        }
        self.style.push_opening(&self.origin, &mut self.out)?;
        self.room = BLOCK_LIMIT;
        Ok(())
    }

    // An operation more in a transaction that is begun.
    fn go_on(&mut self, owner: &Name, change: &Change<'_>) -> Result<(), AllocError>
        requires room { 0 < self.old.room }
        requires short { IsShort change.now }
        ensures same { (self.new.style ≡ self.old.style) × (self.new.origin ≡ self.old.origin) }
        ensures more { OnOk result ((operations : List Operation) → Opened self.old.style self.old.origin self.old.out.items self.old.room operations
            → Begun self.old.style self.old.origin self.new.out.items self.new.room (operations ++ change_view owner.now change.now ∷ [])) }
    {
        self.style.push_line(owner, change, &mut self.out)?;
        self.room -= 1;
        Ok(())
    }

    // Ends the transaction that is begun if it has no room.
    fn end_full(&mut self) -> Result<(), AllocError>
        ensures same { (self.new.style ≡ self.old.style) × (self.new.origin ≡ self.old.origin) }
        ensures held { OnOk result ((operations : List Operation) → Begun self.old.style self.old.origin self.old.out.items self.old.room operations
            → Holds self.old.style self.old.origin self.new.out.items self.new.room operations) }
    {
        if self.room > 0 {
            return Ok(());
        }
        self.out.extend_from_slice(self.style.closing())?;
        Ok(())
    }

    /// All of the text.
    pub fn finish(self) -> Result<Vec<u8>, AllocError>
        ensures { IfOk result (λ text. (aim : Aim) (operations : List Operation)
            → HoldsFor self.style self.origin self.out.items self.room aim operations → text.items ≡ text_in aim.style aim.origin operations) }
    {
        let DiffText {
            style,
            mut out,
            room,
            ..
        } = self;
        if room == 0 {
            return Ok(out);
        }
        out.extend_from_slice(style.closing())?;
        Ok(out)
    }
}

impl OperationSink for DiffText {
    ghost use Rattle.zone_diff.specs.Held.{HoldsFor};

    ghost has = { λ s aim operations. HoldsFor s.style s.origin s.out.items s.room aim operations };

    fn push(&mut self, owner: &Name, change: &Change<'_>) -> Result<(), AllocError> {
        self.begin()?;
        self.go_on(owner, change)?;
        self.end_full()
    }
}

/// The difference of two zones as text, with the first one's origin.
pub fn difference_text(
    alloc: Global,
    style: DiffStyle,
    serial: Serial,
    before: Zone,
    after: Zone,
) -> Result<Vec<u8>, AllocError>
    ensures text { IfOk result (λ text. text.items ≡ text_in style before.origin (difference serial before.pairs after.pairs)) }
    ensures nothing { IfOk result (λ text. (length text.items == 0) ≡ (length (difference serial before.pairs after.pairs) == 0)) }
{
    let mut text = DiffText::new(alloc, style, before.origin());
    push_difference(alloc, serial, before, after, &mut text)?;
    text.finish()
}

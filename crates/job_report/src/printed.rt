//! How answers are printed: their records as they are found.
ghost use Rattle.std.specs.Prelude.{◌≡◌, ◌++◌, [], List, length, OnOk};
ghost use Rattle.job_report.specs.Prelude.{flat_map, Row, row_text, rows_of, answer_text, kind_text, rows_text, HasPrinted};

use crate::replies::push_kind;
use dns_name::Name;
use rr_data::{SetView, push_record};
use std::alloc::{AllocError, Global};
use zone_answer::{Kind, RowSink};

// The records of an RRset, each a line of a master file.
fn push_set(out: &mut Vec<u8>, owner: &Name, set: &SetView<'_>) -> Result<(), AllocError>
    ensures { OnOk result (out.new.items ≡ out.old.items ++ flat_map row_text (rows_of owner.now set.now)) }
{
    let mut records = set.records();
    while let Some(octets) = records.next() {
        push_record(None, true, owner, set, octets, out)?;
    }
    Ok(())
}

/// Records as lines of a master file, printed as they come. One value serves many answers.
#[derive(Drop)]
pub struct PrintedRows {
    text: Vec<u8>,
    // How many lines it has.
    count: u64,
}

impl PrintedRows {
    /// None.
    pub fn new(alloc: Global) -> PrintedRows
        ensures { HasPrinted result [] }
    {
        PrintedRows {
            text: Vec::new(alloc),
            count: 0,
        }
    }

    /// Pushes their lines.
    pub(crate) fn push_lines(&self, out: &mut Vec<u8>) -> Result<(), AllocError>
        ensures { OnOk result (out.new.items ≡ out.old.items ++ self.now.text.items) }
    {
        out.extend_from_slice(&self.text)
    }

    /// Leaves none, and keeps their memory.
    pub fn clear(&mut self)
        ensures { HasPrinted self.new [] }
    {
        self.text.clear();
        self.count = 0;
    }
}

impl RowSink for PrintedRows {
    ghost has = { HasPrinted };

    // More of them than 64 bits count are taken for want of memory.
    fn push(&mut self, _alloc: Global, owner: &Name, set: &SetView<'_>) -> Result<(), AllocError> {
        let Some(count) = self.count.checked_add(u64::from(set.len())) else {
            return Err(AllocError);
        };
        push_set(&mut self.text, owner, set)?;
        self.count = count;
        Ok(())
    }
}

fn kind_name(kind: Kind) -> &'static [u8]
    ensures { result.now ≡ kind_text kind }
{
    match kind {
        Kind::Answered => b"ANSWER",
        Kind::Nodata => b"NODATA",
        Kind::Nxdomain => b"NXDOMAIN",
        Kind::Referral => b"REFERRAL",
        Kind::Outside => b"OUTSIDE",
    }
}

/// Pushes a word, how many records there are, and their lines.
pub fn push_rows(out: &mut Vec<u8>, word: &[u8], lines: &[u8], count: u64) -> Result<(), AllocError>
    ensures { (records : List Row) → lines.now ≡ flat_map row_text records → count ≡ length records
        → OnOk result (out.new.items ≡ out.old.items ++ rows_text word.now records) }
{
    push_kind(out, word, count)?;
    out.extend_from_slice(lines)
}

/// Pushes the kind of an answer, and its records.
pub fn push_answer(out: &mut Vec<u8>, kind: Kind, rows: &PrintedRows) -> Result<(), AllocError>
    ensures { (records : List Row) → HasPrinted rows.now records
        → OnOk result (out.new.items ≡ out.old.items ++ answer_text (record { kind = kind; rows = records })) }
{
    push_kind(out, kind_name(kind), rows.count)?;
    rows.push_lines(out)
}

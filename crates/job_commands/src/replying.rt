//! Questions to one version.
ghost use Rattle.std.specs.Prelude.{◌≡◌, ◌≤◌, ◌++◌, length, IfOk, OnOk, codes};
ghost use Rattle.job_commands.specs.Prelude.{all_rows, most_item_octets, Version, find, Shows, ShowsSome};
ghost use Rattle.job_commands.specs.Prelude.{answer, answer_text, found_text, reply_of, reply_text, respond, response_text, rows_text, size_text, node_count};

use crate::scratch::WorkerScratch;
use dns_name::Name;
use job_model::Question;
use job_report::{
    PrintedRows, ReplyText, push_answer, push_found, push_list, push_response, push_rows, push_size,
};
use std::alloc::{AllocError, Global};
use trie_read::Reading;
use zone_answer::{Scratch, Sections, answer_into, back, find, respond_into, walk};
use zone_dump::dump_text;

// Pushes all records of a version.
fn push_all<V: Reading>(
    alloc: Global,
    version: &mut V,
    item: &mut [u8],
    out: &mut Vec<u8>,
) -> Result<(), AllocError>
    requires shown { ShowsSome (V.holds version.old) }
    requires room { most_item_octets ≤ length item.old }
    ensures same { version.new ≡ version.old }
    ensures reply { (zone : Version) → Shows (V.holds version.old) zone
        → OnOk result (out.new.items ≡ out.old.items ++ rows_text (codes "DUMP") (all_rows zone)) }
{
    let mut lines = Vec::new(alloc);
    let count = dump_text(alloc, version, item, &mut lines)?;
    push_rows(out, b"DUMP", &lines, count)
}

// Pushes how large a version is.
fn push_numbers<V: Reading>(version: &mut V, out: &mut Vec<u8>) -> Result<(), AllocError>
    requires { ShowsSome (V.holds version.old) }
    ensures same { version.new ≡ version.old }
    ensures reply { (zone : Version) → Shows (V.holds version.old) zone
        → OnOk result (out.new.items ≡ out.old.items ++ size_text (length zone) (node_count zone)) }
{
    let names = version.count();
    push_size(out, names, version.nodes())
}

// Pushes what there is of a name. It stands by itself, since whoever calls it clears the room for that.
#[inline(never)]
fn push_around<V: Reading>(
    alloc: Global,
    version: &mut V,
    name: &Name,
    out: &mut Vec<u8>,
) -> Result<(), AllocError>
    requires { ShowsSome (V.holds version.old) }
    ensures same { version.new ≡ version.old }
    ensures reply { (zone : Version) → Shows (V.holds version.old) zone
        → OnOk result (out.new.items ≡ out.old.items ++ found_text (find name.now zone)) }
{
    let found = find(alloc, version, name)?;
    push_found(out, &found)
}

// Pushes the answer to a name and a type.
fn push_asked<V: Reading>(
    alloc: Global,
    origin: &Name,
    version: &mut V,
    name: &Name,
    rtype: u16,
    scratch: &mut Scratch,
    rows: &mut PrintedRows,
    out: &mut Vec<u8>,
) -> Result<(), AllocError>
    requires { ShowsSome (V.holds version.old) }
    ensures same { version.new ≡ version.old }
    ensures reply { (zone : Version) → Shows (V.holds version.old) zone
        → OnOk result (out.new.items ≡ out.old.items ++ answer_text (answer origin.now zone name.now rtype)) }
{
    rows.clear();
    let kind = answer_into(
        alloc,
        version,
        origin,
        name,
        rtype,
        &mut scratch.item,
        &mut scratch.walker,
        rows,
    )?;
    push_answer(out, kind, rows)
}

// Pushes the response for a name and a type.
#[inline(never)]
fn push_whole<V: Reading>(
    alloc: Global,
    origin: &Name,
    version: &mut V,
    name: &Name,
    rtype: u16,
    scratch: &mut Scratch,
    rows: &mut Sections<PrintedRows>,
    out: &mut Vec<u8>,
) -> Result<(), AllocError>
    requires { ShowsSome (V.holds version.old) }
    ensures same { version.new ≡ version.old }
    ensures reply { (zone : Version) → Shows (V.holds version.old) zone
        → OnOk result (out.new.items ≡ out.old.items ++ response_text (respond origin.now zone name.now rtype)) }
{
    rows.rows.clear();
    let header = respond_into(alloc, version, origin, name, rtype, scratch, rows)?;
    push_response(out, &header, &rows.rows)
}

// Pushes what is printed of a version's reply to a question.
fn push_reply<V: Reading>(
    alloc: Global,
    origin: &Name,
    version: &mut V,
    question: &Question,
    scratch: &mut Scratch,
    rows: &mut Sections<PrintedRows>,
    out: &mut Vec<u8>,
) -> Result<(), AllocError>
    requires { ShowsSome (V.holds version.old) }
    ensures same { version.new ≡ version.old }
    ensures reply { (zone : Version) → Shows (V.holds version.old) zone
        → OnOk result (out.new.items ≡ out.old.items ++ reply_text (reply_of origin.now zone question.now)) }
{
    match question {
        Question::Get(name, rtype) => {
            let rows = &mut rows.rows;
            push_asked(alloc, origin, version, name, *rtype, scratch, rows, out)
        }
        Question::Respond(name, rtype) => {
            push_whole(alloc, origin, version, name, *rtype, scratch, rows, out)
        }
        Question::Find(name) => push_around(alloc, version, name, out),
        Question::Walk(stretch) => {
            let names = walk(alloc, version, &stretch.start, stretch.most as usize)?;
            push_list(out, b"WALK", &names)
        }
        Question::Back(stretch) => {
            let names = back(alloc, version, &stretch.start, stretch.most as usize)?;
            push_list(out, b"BACK", &names)
        }
        Question::Dump => push_all(alloc, version, &mut scratch.item, out),
        Question::Stat => push_numbers(version, out),
    }
}

/// What is printed of a version's reply to a question.
pub fn reply_text<V: Reading>(
    alloc: Global,
    origin: &Name,
    version: &mut V,
    question: &Question,
    room: &mut WorkerScratch,
) -> Result<ReplyText, AllocError>
    requires { ShowsSome (V.holds version.old) }
    ensures same { version.new ≡ version.old }
    ensures reply { (zone : Version) → Shows (V.holds version.old) zone
        → IfOk result (λ text. text ≡ reply_text (reply_of origin.now zone question.now)) }
{
    room.text.clear();
    push_reply(
        alloc,
        origin,
        version,
        question,
        &mut room.scratch,
        &mut room.rows,
        &mut room.text,
    )?;
    ReplyText::of(alloc, &room.text)
}

//! How replies to questions are printed.
ghost use Rattle.std.specs.Prelude.{◌≡◌, ◌++◌, OnOk, codes, decimal};
ghost use Rattle.job_report.specs.Prelude.{flat_map, count_text};
ghost use Rattle.job_model.specs.Replies as replies;

use crate::marks::push_between;
use dns_name::Name;
use std::alloc::AllocError;
use trie_read::Kind as Presence;
use zone_answer::Found;
use zone_text::push_decimal;

/// Pushes the kind of a reply, and its count where it isn't 0.
pub fn push_kind(out: &mut Vec<u8>, kind: &[u8], count: u64) -> Result<(), AllocError>
    ensures { OnOk result (out.new.items ≡ out.old.items ++ kind.now ++ count_text count ++ codes "\n") }
{
    out.extend_from_slice(kind)?;
    if count == 0 {
        return out.extend_from_slice(b"\n");
    }
    push_between(out, b' ', count, b'\n')
}

fn push_names(out: &mut Vec<u8>, names: &[Name]) -> Result<(), AllocError>
    ensures { OnOk result (out.new.items ≡ out.old.items ++ flat_map replies.name_line names.now) }
{
    for name in names {
        name.push_text(out)?;
        out.extend_from_slice(b"\n")?;
    }
    Ok(())
}

/// Pushes a word, how many names there are, and the names.
pub fn push_list(out: &mut Vec<u8>, word: &[u8], names: &[Name]) -> Result<(), AllocError>
    ensures { OnOk result (out.new.items ≡ out.old.items ++ replies.names_text word.now names.now) }
{
    push_kind(out, word, names.len() as u64)?;
    push_names(out, names)
}

fn presence_name(presence: Presence) -> &'static [u8]
    ensures { result.now ≡ replies.found_kind_text presence }
{
    match presence {
        Presence::Exact => b"EXACT",
        Presence::Partial => b"PARTIAL",
        Presence::Absent => b"NONE",
    }
}

// The last name that isn't after the one that was sought.
fn push_predecessor(out: &mut Vec<u8>, found: &Found) -> Result<(), AllocError>
    ensures { OnOk result (out.new.items ≡ out.old.items ++ replies.name_or_none found.now.predecessor) }
{
    match found.predecessor() {
        Some(name) => name.push_text(out),
        None => out.extend_from_slice(b"none"),
    }
}

/// Pushes what there is of a name.
pub fn push_found(out: &mut Vec<u8>, found: &Found) -> Result<(), AllocError>
    ensures { OnOk result (out.new.items ≡ out.old.items ++ replies.found_text found.now) }
{
    push_list(out, presence_name(found.kind()), found.chain())?;
    out.extend_from_slice(b"pred ")?;
    push_predecessor(out, found)?;
    out.extend_from_slice(b"\n")
}

/// Pushes how many names a version has, and how many nodes its trie.
pub fn push_size(out: &mut Vec<u8>, names: u64, nodes: u64) -> Result<(), AllocError>
    ensures { OnOk result (out.new.items ≡ out.old.items ++ replies.size_text names nodes) }
{
    out.extend_from_slice(b"names ")?;
    push_decimal(out, names)?;
    out.extend_from_slice(b" nodes ")?;
    push_decimal(out, nodes)?;
    out.extend_from_slice(b"\n")
}

//! Records as lines of a master file (RFC 1035, section 5.1).
ghost use Rattle.std.specs.Prelude.{◌≡◌, ◌++◌, OnOk};
ghost use Rattle.rr_data.specs.Prelude.{StartsWith, option_copied, directives_text, origin_of, owner_field, ttl_field, head_text, line_text};

use crate::data_text::{push_data_in, push_type};
use crate::views::SetView;
use dns_name::Name;
use std::alloc::AllocError;
use std::marker::Model;
use zone_text::push_decimal;

/// What directives at the head of a file set: the origin of relative names, and the time to live of records that state
/// none, in seconds.
#[derive(Drop)]
pub struct Directives {
    origin: Name,
    ttl: u32,
}

impl Model for Directives {
    ghost use Rattle.zone_model.specs.Rows.{Directives};

    ghost Value = { Directives };

    ghost view = { λ d. record { origin = d.origin; ttl = d.ttl } };
}

impl Directives {
    pub fn new(origin: &Name, ttl: u32) -> Directives
        ensures { result ≡ record { origin = origin.now; ttl = ttl } }
    {
        Directives {
            origin: *origin,
            ttl,
        }
    }

    /// Pushes the directives, each on a line. Where no memory is left, some of that may have been pushed.
    pub fn push_text(&self, out: &mut Vec<u8>) -> Result<(), AllocError>
        ensures ok { OnOk result (out.new.items ≡ out.old.items ++ directives_text self.now) }
        ensures kept { StartsWith out.new.items out.old.items }
    {
        out.extend_from_slice(b"$ORIGIN ")?;
        self.origin.push_text(out)?;
        out.extend_from_slice(b"\n$TTL ")?;
        push_decimal(out, u64::from(self.ttl))?;
        out.extend_from_slice(b"\n")
    }

    // The owner with a space behind it, or a tab.
    fn push_owner(&self, first: bool, owner: &Name, out: &mut Vec<u8>) -> Result<(), AllocError>
        ensures ok { OnOk result (out.new.items ≡ out.old.items ++ owner_field self.now first owner.now) }
        ensures kept { StartsWith out.new.items out.old.items }
    {
        if !first {
            return out.extend_from_slice(b"\t");
        }
        owner.push_text_in(Some(&self.origin), out)?;
        out.extend_from_slice(b" ")
    }

    // The time to live with a space behind it, unless the directive says it.
    fn push_ttl(&self, ttl: u32, out: &mut Vec<u8>) -> Result<(), AllocError>
        ensures ok { OnOk result (out.new.items ≡ out.old.items ++ ttl_field self.now ttl) }
        ensures kept { StartsWith out.new.items out.old.items }
    {
        if ttl == self.ttl {
            return Ok(());
        }
        push_decimal(out, u64::from(ttl))?;
        out.extend_from_slice(b" ")
    }
}

// The origin that directives set.
fn origin_of(directives: Option<&Directives>) -> Option<&Name>
    ensures { option_copied result ≡ origin_of (option_copied directives.entry) }
{
    Some(&directives?.origin)
}

// What stands in front of a record's type.
fn push_head(
    directives: Option<&Directives>,
    first: bool,
    owner: &Name,
    ttl: u32,
    out: &mut Vec<u8>,
) -> Result<(), AllocError>
    ensures ok { OnOk result (out.new.items ≡ out.old.items ++ head_text (option_copied directives.entry) first owner.now ttl) }
    ensures kept { StartsWith out.new.items out.old.items }
{
    if let Some(directives) = directives {
        directives.push_owner(first, owner, out)?;
        directives.push_ttl(ttl, out)?;
        return out.extend_from_slice(b"IN ");
    }
    owner.push_text(out)?;
    out.push(b' ')?;
    push_decimal(out, u64::from(ttl))?;
    out.extend_from_slice(b" IN ")
}

/// Pushes a record of an RRset as a line of a master file. With no directives the line says all of the record, and names
/// are absolute. Under directives names at or under their origin are relative to it, their time to live is left out, and a
/// tab stands for the owner where the record isn't the first of its name. Where no memory is left, some of that may have
/// been pushed.
pub fn push_record(
    directives: Option<&Directives>,
    first: bool,
    owner: &Name,
    set: &SetView<'_>,
    octets: &[u8],
    out: &mut Vec<u8>,
) -> Result<(), AllocError>
    ensures ok { OnOk result (out.new.items ≡ out.old.items
        ++ line_text (option_copied directives.entry) first (record { owner = owner.now; rtype = set.now.rtype; ttl = set.now.ttl; octets = octets.now })) }
    ensures kept { StartsWith out.new.items out.old.items }
{
    push_head(directives, first, owner, set.ttl(), out)?;
    push_type(set.rtype(), out)?;
    out.push(b' ')?;
    push_data_in(set.rtype(), octets, origin_of(directives), out)?;
    out.push(b'\n')?;
    Ok(())
}

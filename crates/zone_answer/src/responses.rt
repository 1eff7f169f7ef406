//! Responses: what a message of an authoritative server says.

ghost use Rattle.std.specs.Prelude.{◌≡◌, ◌≤◌, ◌++◌, [], List, length, false, true, IfOk, OnOk};
ghost use Rattle.zone_answer.specs.Prelude.{most_item_octets, Row, Version, Shows, ShowsSome, addresses_for, is_under, owned_rows};
ghost use Rattle.zone_answer.specs.Prelude.{AreCounted, EndsWith, IsResponded, by_kind, negative, respond};

use crate::addresses::push_for;
use crate::header::{Code, Header};
use crate::kind::Kind;
use crate::named::octets_before;
use crate::negative::push_soa;
use crate::node::node;
use crate::question::answer_under;
use crate::rows::Rows;
use crate::scratch::Scratch;
use crate::sections::Sections;
use crate::sink::RowSink;
use crate::walker::Walker;
use dns_name::Name;
use rr_data::NS;
use std::alloc::{AllocError, Global};
use trie_read::Reading;

/// A response: its header, and the records of its sections, one section behind the other.
#[derive(Drop)]
pub struct Response {
    pub header: Header,
    pub rows: Rows,
}

/// The response to a question of a name and a type, from one version of the zone of an origin.
pub fn respond<V: Reading>(
    alloc: Global,
    version: &mut V,
    origin: &Name,
    name: &Name,
    rtype: u16,
) -> Result<Response, AllocError>
    requires { ShowsSome (V.holds version.old) }
    ensures same { version.new ≡ version.old }
    ensures response { (zone : Version) → Shows (V.holds version.old) zone
        → IfOk result (λ r. IsResponded (λ rows. r.rows ≡ rows) (respond origin.now zone name.now rtype) r.header) }
{
    let mut scratch = Scratch::new(alloc)?;
    let mut sections = Sections::new(Rows::new(alloc));
    let header = respond_into(
        alloc,
        version,
        origin,
        name,
        rtype,
        &mut scratch,
        &mut sections,
    )?;
    Ok(Response {
        header,
        rows: sections.rows,
    })
}

/// Hands the records of a response to a sink that has none yet, section by section, and tells the response's header.
pub fn respond_into<V: Reading, S: RowSink + Drop>(
    alloc: Global,
    version: &mut V,
    origin: &Name,
    name: &Name,
    rtype: u16,
    scratch: &mut Scratch,
    rows: &mut Sections<S>,
) -> Result<Header, AllocError>
    requires shown { ShowsSome (V.holds version.old) }
    requires none { S.has rows.old.rows [] }
    ensures same { version.new ≡ version.old }
    ensures response { (zone : Version) → Shows (V.holds version.old) zone
        → IfOk result (IsResponded (S.has rows.new.rows) (respond origin.now zone name.now rtype)) }
{
    if !name.is_under(origin) {
        return Ok(refused());
    }
    respond_under(alloc, version, origin, name, rtype, scratch, rows)
}

// The header of a response to a question for a name that isn't in the zone.
fn refused() -> Header
    ensures { result ≡ record { code = Code.Refused; authoritative = false; answer = 0; authority = 0; additional = 0 } }
{
    Header {
        code: Code::Refused,
        authoritative: false,
        answer: 0,
        authority: 0,
        additional: 0,
    }
}

/// The same for a name that is known to be the origin or to lie under it: the octets of both aren't compared again.
pub fn respond_under<V: Reading, S: RowSink + Drop>(
    alloc: Global,
    version: &mut V,
    origin: &Name,
    name: &Name,
    rtype: u16,
    scratch: &mut Scratch,
    rows: &mut Sections<S>,
) -> Result<Header, AllocError>
    requires shown { ShowsSome (V.holds version.old) }
    requires under { is_under name.now origin.now ≡ true }
    requires none { S.has rows.old.rows [] }
    ensures same { version.new ≡ version.old }
    ensures response { (zone : Version) → Shows (V.holds version.old) zone
        → IfOk result (IsResponded (S.has rows.new.rows) (respond origin.now zone name.now rtype)) }
{
    rows.begin();
    let kind = answer_under(
        alloc,
        version,
        origin,
        name,
        rtype,
        &mut scratch.item,
        &mut scratch.walker,
        rows,
    )?;
    match kind {
        Kind::Answered => answered(alloc, version, origin, rtype, scratch, rows),
        Kind::Nodata => denied(alloc, version, origin, Code::NoError, scratch, rows),
        Kind::Nxdomain => denied(alloc, version, origin, Code::NxDomain, scratch, rows),
        Kind::Referral => referred(alloc, version, origin, scratch, rows),
        Kind::Outside => Ok(refused()),
    }
}

// What stands behind the rows of an answer that ends with an RRset of a type, or with an alias: the addresses of the names that the
// RRset names. It is read again, since the answer's rows are with the sink.
fn push_additional<V: Reading, S: RowSink + Drop>(
    alloc: Global,
    version: &mut V,
    origin: &Name,
    rtype: u16,
    item: &mut [u8],
    other: &mut [u8],
    walker: &mut Walker,
    rows: &mut Sections<S>,
) -> Result<(), AllocError>
    requires shown { ShowsSome (V.holds version.old) }
    requires room { most_item_octets ≤ length item.old }
    requires other_room { most_item_octets ≤ length other.old }
    ensures same { version.new ≡ version.old }
    ensures adds { (zone : Version) (given : List Row) → Shows (V.holds version.old) zone → EndsWith zone rtype given
        → AreCounted (S.has rows.old.rows) rows.old.count rows.old.aliases rows.old.last given
        → OnOk result (AreCounted (S.has rows.new.rows) rows.new.count rows.new.aliases rows.new.last
        (given ++ owned_rows (addresses_for origin.now zone given))) }
{
    let Some(_place) = octets_before(rtype) else {
        return Ok(());
    };
    if rows.count == rows.aliases {
        return Ok(());
    }
    let Some(owner) = rows.last else {
        return Ok(());
    };
    let Some(held) = node(version, walker, &owner, item) else {
        return Ok(());
    };
    match held.view(item).find_set(rtype) {
        Some(set) => push_for(alloc, version, origin, &owner, &set, walker, other, rows),
        None => Ok(()),
    }
}

// The response of an answer.
fn answered<V: Reading, S: RowSink + Drop>(
    alloc: Global,
    version: &mut V,
    origin: &Name,
    rtype: u16,
    scratch: &mut Scratch,
    rows: &mut Sections<S>,
) -> Result<Header, AllocError>
    requires shown { ShowsSome (V.holds version.old) }
    ensures same { version.new ≡ version.old }
    ensures response { (zone : Version) (given : List Row) → Shows (V.holds version.old) zone → EndsWith zone rtype given
        → AreCounted (S.has rows.old.rows) rows.old.count rows.old.aliases rows.old.last given
        → IfOk result (IsResponded (S.has rows.new.rows) (by_kind origin.now zone Kind.Answered given)) }
{
    let answer = rows.count;
    push_additional(
        alloc,
        version,
        origin,
        rtype,
        &mut scratch.item,
        &mut scratch.other,
        &mut scratch.walker,
        rows,
    )?;
    Ok(Header {
        code: Code::NoError,
        authoritative: true,
        answer,
        authority: 0,
        additional: rows.count.saturating_sub(answer),
    })
}

// The response of a referral.
fn referred<V: Reading, S: RowSink + Drop>(
    alloc: Global,
    version: &mut V,
    origin: &Name,
    scratch: &mut Scratch,
    rows: &mut Sections<S>,
) -> Result<Header, AllocError>
    requires shown { ShowsSome (V.holds version.old) }
    ensures same { version.new ≡ version.old }
    ensures response { (zone : Version) (given : List Row) → Shows (V.holds version.old) zone → EndsWith zone 2 given
        → AreCounted (S.has rows.old.rows) rows.old.count rows.old.aliases rows.old.last given
        → IfOk result (IsResponded (S.has rows.new.rows) (by_kind origin.now zone Kind.Referral given)) }
{
    let given = rows.count;
    let aliases = rows.aliases;
    push_additional(
        alloc,
        version,
        origin,
        NS,
        &mut scratch.item,
        &mut scratch.other,
        &mut scratch.walker,
        rows,
    )?;
    Ok(Header {
        code: Code::NoError,
        authoritative: aliases > 0,
        answer: aliases,
        authority: given.saturating_sub(aliases),
        additional: rows.count.saturating_sub(given),
    })
}

// The response of a negative answer.
fn denied<V: Reading, S: RowSink + Drop>(
    alloc: Global,
    version: &mut V,
    origin: &Name,
    code: Code,
    scratch: &mut Scratch,
    rows: &mut Sections<S>,
) -> Result<Header, AllocError>
    requires shown { ShowsSome (V.holds version.old) }
    ensures same { version.new ≡ version.old }
    ensures response { (zone : Version) (given : List Row) → Shows (V.holds version.old) zone
        → AreCounted (S.has rows.old.rows) rows.old.count rows.old.aliases rows.old.last given
        → IfOk result (IsResponded (S.has rows.new.rows) (negative origin.now zone code given)) }
{
    let answer = rows.count;
    push_soa(
        alloc,
        version,
        origin,
        &mut scratch.walker,
        &mut scratch.item,
        rows,
    )?;
    Ok(Header {
        code,
        authoritative: true,
        answer,
        authority: rows.count.saturating_sub(answer),
        additional: 0,
    })
}

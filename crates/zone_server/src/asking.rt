//! Questions.
ghost use Rattle.std.specs.Prelude.{◌≡◌, [], true, IfOk};
ghost use Rattle.zone_server.specs.Prelude.{AreServing, HasAsked, IsGiven, IsHere, IsReply, IsServing, IsShown};
ghost use Rattle.zone_server.specs.Prelude.{answer, is_under, known_at, known_of, reply_map};

use crate::home::Home;
use crate::reply::{FromZone, Reply};
use crate::server::{Server, ServerPass};
use dns_name::Name;
use job_commands::ZoneLaw;
use qp_multi::{Index, Named, Pass};
use std::alloc::{AllocError, Global};
use trie_read::Reading;
use zone_answer::{Kind, RowSink, Rows, Scratch, answer_under};
use zone_table::{Zones, ZonesPass};

/// An answer: its kind, and the records that it gives.
#[derive(Drop)]
pub struct Answered {
    pub kind: Kind,
    pub rows: Rows,
}

/// What a version told, and its number.
#[derive(Drop)]
pub(crate) struct Shown<T> {
    pub version: u64,
    pub told: T,
}

// Asks the current version of a zone for a name at or under its origin. It is pinned meanwhile.
fn ask_index<N: Named, S: RowSink>(
    alloc: Global,
    index: &Index<ZoneLaw, N>,
    pass: &mut Pass<N>,
    origin: &Name,
    name: &Name,
    rtype: u16,
    scratch: &mut Scratch,
    rows: &mut S,
) -> Result<Shown<Kind>, AllocError>
    requires pass { IsHere index.now.place pass.old }
    requires under { is_under name.now origin.now ≡ true }
    requires none { S.has rows.old [] }
    ensures asks { HasAsked pass.old pass.new }
    ensures shown { IfOk result (λ s. IsShown (λ zone. IsGiven (S.has rows.new) (answer origin.now zone name.now rtype) s.told)
        (known_at pass.old.seat) (known_at pass.new.seat) s.version) }
{
    let mut query = pass.query(index);
    let version = query.version();
    let told = answer_under(
        alloc,
        &mut query,
        origin,
        name,
        rtype,
        &mut scratch.item,
        &mut scratch.walker,
        rows,
    )?;
    Ok(Shown { version, told })
}

// Finds the zone that a name is in, and asks it.
fn ask_zones<H: Home, S: RowSink>(
    alloc: Global,
    zones: &Zones<ZoneLaw, H>,
    pass: &mut ZonesPass<H>,
    name: &Name,
    rtype: u16,
    scratch: &mut Scratch,
    rows: &mut S,
) -> Result<Reply<Kind>, AllocError>
    requires serves { AreServing H.zones zones.now pass.old }
    requires none { S.has rows.old [] }
    ensures pass { IsServing H.zones pass.new }
    ensures reply { IfOk result (IsReply H.zones name.now (λ origin zone. IsGiven (S.has rows.new) (answer origin zone name.now rtype))
        (known_of pass.old) (known_of pass.new)) }
{
    let located = pass.locate(zones, name);
    let table = located.version;
    let Some(zone) = located.zone else {
        return Ok(Reply { table, from: None });
    };
    let index = zones.zone(zone);
    let origin = zones.origin(zone);
    let place = pass.zone(zones, zone);
    let shown = ask_index(alloc, index, place, origin, name, rtype, scratch, rows)?;
    let from = FromZone {
        zone,
        version: shown.version,
        told: shown.told,
    };
    Ok(Reply {
        table,
        from: Some(from),
    })
}

// The reply, with the records that were gathered.
fn with_rows(reply: Reply<Kind>, rows: Rows) -> Reply<Answered>
    ensures { result ≡ reply_map (λ kind. record { kind = kind; rows = rows }) reply }
{
    let Reply { table, from } = reply;
    let Some(from) = from else {
        return Reply { table, from: None };
    };
    let FromZone {
        zone,
        version,
        told: kind,
    } = from;
    let from = FromZone {
        zone,
        version,
        told: Answered { kind, rows },
    };
    Reply {
        table,
        from: Some(from),
    }
}

impl<H: Home> Server<H> {
    /// Hands the records of an answer to a sink that has none yet, and tells the answer's kind and which version of which zone it is of.
    pub fn ask_into<S: RowSink>(
        &self,
        alloc: Global,
        pass: &mut ServerPass<H>,
        name: &Name,
        rtype: u16,
        rows: &mut S,
    ) -> Result<Reply<Kind>, AllocError>
        requires { S.has rows.old [] }
        ensures { IfOk result (IsReply H.zones name.now (λ origin zone. IsGiven (S.has rows.new) (answer origin zone name.now rtype)) pass.old pass.new) }
    {
        ask_zones(
            alloc,
            &self.zones,
            &mut pass.pass,
            name,
            rtype,
            &mut pass.scratch,
            rows,
        )
    }

    /// The answer to a question of a name and a type.
    pub fn ask(
        &self,
        alloc: Global,
        pass: &mut ServerPass<H>,
        name: &Name,
        rtype: u16,
    ) -> Result<Reply<Answered>, AllocError>
        ensures { IfOk result (IsReply H.zones name.now (λ origin zone a. IsGiven (λ rows. a.rows ≡ rows) (answer origin zone name.now rtype) a.kind)
            pass.old pass.new) }
    {
        let mut rows = Rows::new(alloc);
        let reply = self.ask_into(alloc, pass, name, rtype, &mut rows)?;
        Ok(with_rows(reply, rows))
    }
}

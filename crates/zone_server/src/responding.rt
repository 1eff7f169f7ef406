//! Responses: what a message of an authoritative server says.
ghost use Rattle.std.specs.Prelude.{◌≡◌, [], IfOk};
ghost use Rattle.zone_server.specs.Prelude.{AreServing, HasAsked, IsHere, IsReply, IsResponded, IsServing, IsShown};
ghost use Rattle.zone_server.specs.Prelude.{known_at, known_of, reply_map, respond};

use crate::asking::Shown;
use crate::home::Home;
use crate::reply::{FromZone, Reply};
use crate::server::{Server, ServerPass};
use dns_name::Name;
use job_commands::ZoneLaw;
use qp_multi::{Index, Named, Pass};
use std::alloc::{AllocError, Global};
use trie_read::Reading;
use zone_answer::{Header, Response, RowSink, Rows, Scratch, Sections, respond_into};
use zone_table::{Zones, ZonesPass};

// Asks the current version of a zone for a response. It is pinned meanwhile.
fn respond_index<N: Named, S: RowSink + Drop>(
    alloc: Global,
    index: &Index<ZoneLaw, N>,
    pass: &mut Pass<N>,
    origin: &Name,
    name: &Name,
    rtype: u16,
    scratch: &mut Scratch,
    rows: &mut Sections<S>,
) -> Result<Shown<Header>, AllocError>
    requires pass { IsHere index.now.place pass.old }
    requires none { S.has rows.old.rows [] }
    ensures asks { HasAsked pass.old pass.new }
    ensures shown { IfOk result (λ s. IsShown (λ zone. IsResponded (S.has rows.new.rows) (respond origin.now zone name.now rtype) s.told)
        (known_at pass.old.seat) (known_at pass.new.seat) s.version) }
{
    let mut query = pass.query(index);
    let version = query.version();
    let told = respond_into(alloc, &mut query, origin, name, rtype, scratch, rows)?;
    Ok(Shown { version, told })
}

// Finds the zone that a name is in, and asks it for a response.
fn respond_zones<H: Home, S: RowSink + Drop>(
    alloc: Global,
    zones: &Zones<ZoneLaw, H>,
    pass: &mut ZonesPass<H>,
    name: &Name,
    rtype: u16,
    scratch: &mut Scratch,
    rows: &mut Sections<S>,
) -> Result<Reply<Header>, AllocError>
    requires serves { AreServing H.zones zones.now pass.old }
    requires none { S.has rows.old.rows [] }
    ensures pass { IsServing H.zones pass.new }
    ensures reply { IfOk result (IsReply H.zones name.now (λ origin zone. IsResponded (S.has rows.new.rows) (respond origin zone name.now rtype))
        (known_of pass.old) (known_of pass.new)) }
{
    let located = pass.locate(zones, name);
    let table = located.version;
    let Some(zone) = located.zone else {
        return Ok(Reply { table, from: None });
    };
    let index = zones.zone(zone);
    let origin = zones.origin(zone);
    let place = pass.zone(zones, zone);
    let shown = respond_index(alloc, index, place, origin, name, rtype, scratch, rows)?;
    let from = FromZone {
        zone,
        version: shown.version,
        told: shown.told,
    };
    Ok(Reply {
        table,
        from: Some(from),
    })
}

// The reply, with the records that were gathered.
fn with_rows(reply: Reply<Header>, rows: Rows) -> Reply<Response>
    ensures { result ≡ reply_map (λ header. record { header = header; rows = rows }) reply }
{
    let Reply { table, from } = reply;
    let Some(from) = from else {
        return Reply { table, from: None };
    };
    let FromZone {
        zone,
        version,
        told: header,
    } = from;
    let from = FromZone {
        zone,
        version,
        told: Response { header, rows },
    };
    Reply {
        table,
        from: Some(from),
    }
}

impl<H: Home> Server<H> {
    /// Hands the records of a response to a sink that has none yet, one section behind the other, and tells the response's header and which
    /// version of which zone it is of.
    pub fn respond_into<S: RowSink + Drop>(
        &self,
        alloc: Global,
        pass: &mut ServerPass<H>,
        name: &Name,
        rtype: u16,
        rows: &mut Sections<S>,
    ) -> Result<Reply<Header>, AllocError>
        requires { S.has rows.old.rows [] }
        ensures { IfOk result (IsReply H.zones name.now (λ origin zone. IsResponded (S.has rows.new.rows) (respond origin zone name.now rtype))
            pass.old pass.new) }
    {
        respond_zones(
            alloc,
            &self.zones,
            &mut pass.pass,
            name,
            rtype,
            &mut pass.scratch,
            rows,
        )
    }

    /// The response to a question of a name and a type.
    pub fn respond(
        &self,
        alloc: Global,
        pass: &mut ServerPass<H>,
        name: &Name,
        rtype: u16,
    ) -> Result<Reply<Response>, AllocError>
        ensures { IfOk result (IsReply H.zones name.now (λ origin zone r. IsResponded (λ rows. r.rows ≡ rows) (respond origin zone name.now rtype) r.header)
            pass.old pass.new) }
    {
        let mut sections = Sections::new(Rows::new(alloc));
        let reply = self.respond_into(alloc, pass, name, rtype, &mut sections)?;
        let Sections { rows, .. } = sections;
        Ok(with_rows(reply, rows))
    }
}

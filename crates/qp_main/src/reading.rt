//! What octets say, read with what is so of all that they may say.
ghost use Rattle.std.specs.Prelude.{◌≡◌, ◌≤◌, ◌^◌, List, length, IfOk, vec_len, false};
ghost use Rattle.qp_main.specs.Prelude.{AllByRecursion, lines_of, zone_at, zone_of, Reads, CanBeDumped, InTurn, NeedsNoSnapshot, list_of, script_of};
ghost use Rattle.qp_main.specs.Prelude.{Says, job_view, list_view, AllAsked, workers_view, zones_of, AreListed, IsRead, AreOrigins, IsScriptOver, IsText};
ghost use Rattle.zones_script.specs.Scripts as over_zones;

use dns_name::Name;
use job_script::{Command, Job, JobRefusal, read_job, read_list};
use master_file::{Zone, read_zone, read_zone_at};
use std::alloc::Global;
use zone_list::read_zones;
use zone_text::ZoneRefusal;
use zones_script::{ZonesScript, read_script};

/// The zone that octets say. It is one of the origin.
pub fn zone_in(alloc: Global, bytes: &[u8], origin: &Name) -> Result<Zone, ZoneRefusal>
    requires short { length bytes.now ≤ 2 ^ 24 }
    ensures zone { Reads result (λ z. z.pairs) (zone_of origin.now (lines_of bytes.now)) }
    ensures of_origin { IfOk result (λ z. CanBeDumped origin.now z.pairs) }
    ensures origin { IfOk result (λ z. z.origin ≡ origin.now) }
{
    let _wire = origin.wire(); // for the proof: it is a name
    read_zone(alloc, bytes, origin)
}

/// The same where the first line has another number.
pub fn zone_from(
    alloc: Global,
    bytes: &[u8],
    first_line: u32,
    origin: &Name,
) -> Result<Zone, ZoneRefusal>
    requires short { length bytes.now ≤ 2 ^ 24 }
    requires early { first_line ≤ 2 ^ 25 }
    ensures zone { Reads result (λ z. z.pairs) (zone_at first_line origin.now (lines_of bytes.now)) }
    ensures of_origin { IfOk result (λ z. CanBeDumped origin.now z.pairs) }
    ensures origin { IfOk result (λ z. z.origin ≡ origin.now) }
{
    let _wire = origin.wire(); // for the proof: it is a name
    read_zone_at(alloc, bytes, first_line, origin)
}

/// The job whose script octets say. What its commands ask for are changes of a zone of the origin.
pub fn job_in(
    alloc: Global,
    bytes: &[u8],
    first_line: u32,
    origin: &Name,
) -> Result<Job, JobRefusal>
    requires { IsText first_line bytes.now }
    ensures reads { Says result job_view (script_of origin.now first_line (lines_of bytes.now)) }
    ensures in_turn { IfOk result (λ job. AllByRecursion (InTurn false) (job_view job)) }
    ensures few_workers { IfOk result (λ job. length job.workers.items ≤ 16) }
    ensures said { IfOk result (λ job. AllByRecursion (AllByRecursion (AllAsked origin.now)) (job_view job)) }
{
    let _wire = origin.wire(); // for the proof: it is a name
    read_job(alloc, bytes, first_line, origin)
}

/// The same of one list of commands.
pub fn list_in(
    alloc: Global,
    bytes: &[u8],
    first_line: u32,
    origin: &Name,
) -> Result<Vec<Command>, JobRefusal>
    requires { IsText first_line bytes.now }
    ensures reads { Says result list_view (list_of origin.now first_line (lines_of bytes.now)) }
    ensures no_snapshots { IfOk result (λ commands. AllByRecursion NeedsNoSnapshot (list_view commands)) }
    ensures few_commands { IfOk result (λ commands. vec_len commands ≤ 10000) }
    ensures said { IfOk result (λ commands. AllByRecursion (AllAsked origin.now) (list_view commands)) }
{
    let _wire = origin.wire(); // for the proof: it is a name
    read_list(alloc, bytes, first_line, origin)
}

/// The zones that octets say, each of its own origin.
pub fn zones_in(alloc: Global, bytes: &[u8]) -> Result<Vec<Zone>, ZoneRefusal>
    requires short { length bytes.now ≤ 2 ^ 24 }
    ensures zones { Reads result (λ v. v.items) (zones_of (lines_of bytes.now)) }
    ensures listed { IfOk result (λ v. AreListed v.items) }
    ensures said { IfOk result (λ v. AllByRecursion IsRead v.items) }
{
    read_zones(alloc, bytes)
}

/// The script over zones of these origins that octets say. What a block asks for are changes of its zone.
pub fn zones_script_in(
    alloc: Global,
    bytes: &[u8],
    first_line: u32,
    origins: &[Name],
) -> Result<ZonesScript, JobRefusal>
    requires text { IsText first_line bytes.now }
    requires first { 1 ≤ first_line }
    requires origins { AreOrigins origins.now }
    ensures reads { Says result workers_view (over_zones.script_of origins.now first_line (lines_of bytes.now)) }
    ensures script { IfOk result (IsScriptOver origins.now) }
{
    read_script(alloc, bytes, first_line, origins)
}

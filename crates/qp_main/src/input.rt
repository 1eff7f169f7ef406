//! An input: the bytes of a zone or of several zones, and those of a script behind them.
ghost use Rattle.std.specs.Prelude.{◌≡◌, ◌<◌, ◌≤◌, ◌+◌, ◌^◌, List, length, IfOk, IfErr, Ok, vec_len, false};
ghost use Rattle.qp_main.specs.Prelude.{AllByRecursion, lines_of, second_said, zone_said, CanBeDumped, InTurn, NeedsNoSnapshot, fed_job_of, job_of};
ghost use Rattle.qp_main.specs.Prelude.{list_of, script_lines, script_of, script_start, zone_lines, job_view, list_view, AllAsked, zones_of};
ghost use Rattle.qp_main.specs.Prelude.{AreListed, workers_view, RefusesScript, IsRead, IsStop, JobStops, ListStops, ScriptStops, ZoneStops};
ghost use Rattle.zones_script.specs.Scripts as over_zones;
ghost use Rattle.qp_main.specs.Prelude.{AreOrigins, IsScriptOver};

use crate::reading::{job_in, list_in, zone_from, zone_in, zones_in, zones_script_in};
use crate::refusal_lines::script_refused;
use crate::refusing::{Stop, script_stop, zone_stop};
use crate::status::Status;
use dns_name::Name;
use job_model::ScriptKind;
use job_script::{Command, Job, JobRefusal, split};
use master_file::{Zone, read_zone};
use std::alloc::Global;
use std::marker::Model;
use zones_script::ZonesScript;

/// At most 16,777,216 bytes, cut where a script begins. Contracts see the list of all of them.
#[derive(Drop)]
pub struct Input {
    bytes: Vec<u8>,
    zone_len: usize,
    script_from: usize,
    first_line: u32,
}

impl Model for Input {
    ghost use Rattle.std.specs.Prelude.{◌≤◌, ◌^◌, ℕ, List, length};
    ghost use Rattle.job_script.specs.Parts.{IsCutAt};

    ghost Value = { List ℕ };

    ghost view = { λ i. i.bytes.items };

    ghost invariant = { λ i. (length i.bytes.items ≤ 2 ^ 24) × IsCutAt i.bytes.items i.zone_len i.script_from i.first_line };
}

impl Input {
    /// The input of these bytes.
    pub fn of(bytes: Vec<u8>) -> Input
        requires { length bytes.items ≤ 2 ^ 24 }
        ensures { result ≡ bytes.items }
    {
        let parts = split(&bytes);
        let zone_len = parts.zone.len();
        let script_from = bytes.len() - parts.script.len();
        let first_line = parts.first_line;
        Input {
            bytes,
            zone_len,
            script_from,
            first_line,
        }
    }

    // The bytes of its zones.
    fn zone_bytes(&self) -> &[u8]
        ensures lines { lines_of result.now ≡ zone_lines self.now }
        ensures short { length result.now ≤ 2 ^ 24 }
    {
        &self.bytes.as_slice()[..self.zone_len]
    }

    // Those of its script.
    fn script_bytes(&self) -> &[u8]
        ensures lines { lines_of result.now ≡ script_lines self.now }
        ensures short { length result.now ≤ 2 ^ 24 }
        ensures whole { length self.now ≤ 2 ^ 24 }
    {
        &self.bytes.as_slice()[self.script_from..]
    }

    // The number of the script's first line.
    fn first_line(&self) -> u32
        ensures first { result ≡ script_start self.now }
        ensures some { 1 ≤ result }
        ensures few { result ≤ 2 ^ 24 + 1 }
    {
        self.first_line
    }

    /// Its zone, which is one of the origin; or what is told in the place of that.
    pub fn zone(&self, alloc: Global, origin: &Name) -> Result<Zone, Stop>
        ensures zone { IfOk result (λ z. zone_said origin.now self.now ≡ Ok z.pairs) }
        ensures of_origin { IfOk result (λ z. CanBeDumped origin.now z.pairs) }
        ensures origin { IfOk result (λ z. z.origin ≡ origin.now) }
        ensures stops { IfErr result (IsStop (ZoneStops (zone_said origin.now self.now))) }
    {
        match zone_in(alloc, self.zone_bytes(), origin) {
            Ok(zone) => Ok(zone),
            Err(refusal) => Err(zone_stop(refusal)),
        }
    }

    /// The zone behind the cut, whose lines are counted through the whole input; or what is told in the place of that.
    pub fn second_zone(&self, alloc: Global, origin: &Name) -> Result<Zone, Stop>
        ensures zone { IfOk result (λ z. second_said origin.now self.now ≡ Ok z.pairs) }
        ensures of_origin { IfOk result (λ z. CanBeDumped origin.now z.pairs) }
        ensures short { length self.now ≤ 2 ^ 24 }
        ensures stops { IfErr result (IsStop (ZoneStops (second_said origin.now self.now))) }
    {
        match zone_from(alloc, self.script_bytes(), self.first_line(), origin) {
            Ok(zone) => Ok(zone),
            Err(refusal) => Err(zone_stop(refusal)),
        }
    }

    // What is told of a script that is refused on this line. What is wrong with the zone comes first.
    fn refuse(&self, alloc: Global, origin: &Name, line: u32, kind: ScriptKind) -> Stop
        ensures { IsStop (RefusesScript (zone_said origin.now self.now) (record { line = line; kind = kind })) result }
    {
        script_stop(read_zone(alloc, self.zone_bytes(), origin), line, kind)
    }

    /// The job of its script, whose commands ask for changes of a zone of the origin; or what is told in the place of that.
    pub fn job(&self, alloc: Global, origin: &Name) -> Result<Job, Stop>
        ensures script { IfOk result (λ job. script_of origin.now (script_start self.now) (script_lines self.now) ≡ Ok (job_view job)) }
        ensures in_turn { IfOk result (λ job. AllByRecursion (InTurn false) (job_view job)) }
        ensures few_workers { IfOk result (λ job. length job.workers.items ≤ 16) }
        ensures said { IfOk result (λ job. AllByRecursion (AllByRecursion (AllAsked origin.now)) (job_view job)) }
        ensures stops { IfErr result (IsStop (JobStops (job_of origin.now self.now))) }
    {
        match job_in(alloc, self.script_bytes(), self.first_line(), origin) {
            Ok(job) => Ok(job),
            Err(JobRefusal::Refused { line, kind }) => Err(self.refuse(alloc, origin, line, kind)),
            Err(JobRefusal::Memory) => Err(Stop::Memory),
        }
    }

    /// The same of a script that is one list of commands.
    pub fn list(&self, alloc: Global, origin: &Name) -> Result<Vec<Command>, Stop>
        ensures list { IfOk result (λ cs. list_of origin.now (script_start self.now) (script_lines self.now) ≡ Ok (list_view cs)) }
        ensures no_snapshots { IfOk result (λ cs. AllByRecursion NeedsNoSnapshot (list_view cs)) }
        ensures few_commands { IfOk result (λ cs. vec_len cs ≤ 10000) }
        ensures said { IfOk result (λ cs. AllByRecursion (AllAsked origin.now) (list_view cs)) }
        ensures stops { IfErr result (IsStop (JobStops (fed_job_of origin.now self.now))) }
    {
        match list_in(alloc, self.script_bytes(), self.first_line(), origin) {
            Ok(commands) => Ok(commands),
            Err(JobRefusal::Refused { line, kind }) => Err(self.refuse(alloc, origin, line, kind)),
            Err(JobRefusal::Memory) => Err(Stop::Memory),
        }
    }

    /// Its zones, each of its own origin; or what is told in the place of these.
    pub fn zones(&self, alloc: Global) -> Result<Vec<Zone>, Stop>
        ensures zones { IfOk result (λ v. zones_of (zone_lines self.now) ≡ Ok v.items) }
        ensures listed { IfOk result (λ v. AreListed v.items) }
        ensures said { IfOk result (λ v. AllByRecursion IsRead v.items) }
        ensures stops { IfErr result (IsStop (ListStops (zones_of (zone_lines self.now)))) }
    {
        match zones_in(alloc, self.zone_bytes()) {
            Ok(zones) => Ok(zones),
            Err(refusal) => Err(zone_stop(refusal)),
        }
    }

    /// The script over zones of these origins, whose blocks ask for changes of their zones; or what is told in the place of that.
    pub fn script_over(&self, alloc: Global, origins: &[Name]) -> Result<ZonesScript, Stop>
        requires { AreOrigins origins.now }
        ensures reads { IfOk result (λ s. over_zones.script_of origins.now (script_start self.now) (script_lines self.now) ≡ Ok (workers_view s)) }
        ensures script { IfOk result (IsScriptOver origins.now) }
        ensures stops { IfErr result (IsStop (ScriptStops (over_zones.script_of origins.now (script_start self.now) (script_lines self.now)))) }
    {
        match zones_script_in(alloc, self.script_bytes(), self.first_line(), origins) {
            Ok(script) => Ok(script),
            Err(JobRefusal::Refused { line, kind }) => Err(Stop::Refused(
                Status::ScriptRefused,
                script_refused(line, kind),
            )),
            Err(JobRefusal::Memory) => Err(Stop::Memory),
        }
    }
}

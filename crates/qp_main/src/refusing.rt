//! What is told of a zone or a script that is refused.
ghost use Rattle.std.specs.Prelude.{◌≡◌};
ghost use Rattle.qp_main.specs.Stops.{ScriptStopsFor, ZoneStopsFor};

use crate::refusal_lines::{script_refused, zone_refused};
use crate::status::Status;
use dns_name::Octets;
use job_model::ScriptKind;
use master_file::Zone;
use std::alloc::AllocError;
use zone_model::ZoneKind;
use zone_text::ZoneRefusal;

/// Why an input has no answer of its own.
#[derive(Drop)]
pub enum Stop {
    /// It is refused, which is told by this status and this line. They take no memory.
    Refused(Status, Octets),
    Memory,
}

impl From<AllocError> for Stop {
    ghost use Rattle.qp_main.specs.declared.refusing.Stop.TheVariants.{Memory};

    ghost from_gives = { λ _ e. e ≡ Memory };

    fn from(_: AllocError) -> Self {
        Stop::Memory
    }
}

/// What is told of a zone that its reader refused, or of several. Memory is wanting only where the reader wanted it.
pub fn zone_stop(refusal: ZoneRefusal) -> Stop
    ensures { ZoneStopsFor refusal result }
{
    match refusal.kind {
        ZoneKind::Memory => Stop::Memory,
        _ => Stop::Refused(
            Status::ZoneRefused,
            zone_refused(refusal.line, refusal.kind),
        ),
    }
}

/// What is told of a script that is refused on this line, by what its zone was read as: the zone's refusal comes first.
pub fn script_stop(zone: Result<Zone, ZoneRefusal>, line: u32, kind: ScriptKind) -> Stop
    ensures { ScriptStopsFor zone (record { line = line; kind = kind }) result }
{
    match zone {
        Ok(_) => Stop::Refused(Status::ScriptRefused, script_refused(line, kind)),
        Err(refusal) => zone_stop(refusal),
    }
}

//! Questions for the zone that a name belongs to.
ghost use Rattle.std.specs.Prelude.{IfOk};
ghost use Rattle.zones_model.specs.Commands as model;
ghost use Rattle.zones_threads.specs.Prelude.{IsPassOf, Goes};

use dns_name::Name;
use job_commands::{WorkerScratch, ZoneLaw, run_question};
use job_model::Question;
use qp_multi::Named;
use std::alloc::{AllocError, Global};
use zone_table::{Zones, ZonesPass};
use zones_report::{Answer, CommandEnd};

/// Asks the zone that the current version of the table has for the name, if it has one.
pub fn get<N: Named>(
    alloc: Global,
    zones: &Zones<ZoneLaw, N>,
    pass: &mut ZonesPass<N>,
    name: &Name,
    rtype: u16,
    room: &mut WorkerScratch,
) -> Result<CommandEnd, AllocError>
    requires pass { IsPassOf zones.now.origins.items pass.old }
    ensures { IfOk result (λ d. Goes zones.now (model.Get name.now rtype) d pass.old pass.new) }
{
    let located = pass.locate(zones, name);
    let table = located.version;
    let Some(zone) = located.zone else {
        return Ok(CommandEnd::Got {
            table,
            answer: None,
        });
    };
    let question = Question::Get(*name, rtype);
    let index = zones.zone(zone);
    let origin = zones.origin(zone);
    let place = pass.zone(zones, zone);
    let outcome = run_question(alloc, origin, index, place, &question, room)?;
    let answer = Answer { zone, outcome };
    Ok(CommandEnd::Got {
        table,
        answer: Some(answer),
    })
}

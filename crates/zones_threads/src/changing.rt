//! Changes of the table of zones.
ghost use Rattle.std.specs.Prelude.{◌≡◌, ◌<◌, length};
ghost use Rattle.zones_model.specs.Commands as model;
ghost use Rattle.zones_threads.specs.Prelude.{IsPassOf, cause_told, version_told, Goes};

use job_commands::ZoneLaw;
use qp_multi::{Named, Receipt};
use std::sync::Wait;
use zone_table::{TableRefusal, Zones, ZonesPass};
use zones_model::TableCause;
use zones_report::CommandEnd;

// The table's version that a change made, or that it was refused on.
fn version_of(ended: &Result<Receipt, TableRefusal>) -> u64
    ensures { result ≡ version_told ended.now }
{
    match ended {
        Ok(receipt) => receipt.version,
        Err(TableRefusal::Exists { version }) => *version,
        Err(TableRefusal::Missing { version }) => *version,
        Err(TableRefusal::Spent { version }) => *version,
    }
}

// Why it was refused, if it was.
fn cause_of(ended: &Result<Receipt, TableRefusal>) -> Option<TableCause>
    ensures { result ≡ cause_told ended.now }
{
    match ended {
        Ok(_) => None,
        Err(TableRefusal::Exists { .. }) => Some(TableCause::Exists),
        Err(TableRefusal::Missing { .. }) => Some(TableCause::Missing),
        Err(TableRefusal::Spent { .. }) => Some(TableCause::Spent),
    }
}

/// Attaches a zone, if it isn't.
pub fn attach<R: Wait, N: Named>(
    rt: &R,
    zones: &Zones<ZoneLaw, N>,
    pass: &mut ZonesPass<N>,
    zone: u32,
) -> CommandEnd
    requires pass { IsPassOf zones.now.origins.items pass.old }
    requires zone { zone < length zones.now.origins.items }
    ensures { Goes zones.now (model.Attach zone) result pass.old pass.new }
{
    let ended = zones.attach(rt, pass, zone);
    CommandEnd::Attached {
        table: version_of(&ended),
        refused: cause_of(&ended),
    }
}

/// Detaches a zone, if it is attached.
pub fn detach<R: Wait, N: Named>(
    rt: &R,
    zones: &Zones<ZoneLaw, N>,
    pass: &mut ZonesPass<N>,
    zone: u32,
) -> CommandEnd
    requires pass { IsPassOf zones.now.origins.items pass.old }
    requires zone { zone < length zones.now.origins.items }
    ensures { Goes zones.now (model.Detach zone) result pass.old pass.new }
{
    let ended = zones.detach(rt, pass, zone);
    CommandEnd::Detached {
        table: version_of(&ended),
        refused: cause_of(&ended),
    }
}

//! Compactions.
ghost use Rattle.std.specs.Prelude.{◌≡◌, IsOk, IfOk, IfErr};
ghost use Rattle.job_commands.specs.Prelude.{Committed, EndsCompaction, IsHere, NoNumber, Refused, RunsCompaction, ended_view, table_size};

use crate::law::ZoneLaw;
use job_report::{Cause, Outcome, Told};
use qp_multi::{Index, Named, Pass, Receipt, Spent};
use std::sync::Wait;

// How a compaction ended.
fn compacted(receipt: Result<Receipt, Spent>) -> Outcome
    ensures made { IfOk receipt (λ r. (result.version ≡ r.version) × (ended_view result.told ≡ Committed)) }
    ensures spent { IfErr receipt (λ s. (result.version ≡ s.version) × (ended_view result.told ≡ Refused NoNumber)) }
    ensures ends { EndsCompaction result.told }
    ensures only { result.told ≡ Told.Compacted → IsOk receipt }
{
    match receipt {
        Ok(receipt) => Outcome {
            version: receipt.version,
            told: Told::Compacted,
        },
        Err(spent) => Outcome {
            version: spent.version,
            told: Told::Refused(Cause::Spent),
        },
    }
}

/// Makes a version of the names that there are, with what lies in sparse chunks moved. It ends as a block without operations does.
pub fn run_compaction<R: Wait, N: Named>(
    rt: &R,
    index: &Index<ZoneLaw, N>,
    pass: &mut Pass<N>,
) -> Outcome
    requires pass { IsHere index.now.place pass.old }
    ensures pass { IsHere pass.old.place pass.new }
    ensures runs { RunsCompaction index.now.shared.table.shared.table_id (table_size index.now).passes pass.old.seat pass.new.seat result }
{
    compacted(index.compact(rt, pass))
}

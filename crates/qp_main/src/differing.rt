//! What makes of a zone another one.
ghost use Rattle.std.specs.Prelude.{◌≡◌, ◌==◌, length, IfErr, IfOk, if◌then◌else◌};
ghost use Rattle.qp_main.specs.Prelude.{Differs, IsAnswerDue, IsStop, second_said, zone_said};

use crate::input::Input;
use crate::refusing::Stop;
use crate::status::Status;
use command_line::{Comparison, Invocation};
use job_report::Pieces;
use std::alloc::Global;
use zone_diff::difference_text;

// The status of a text that is something where zones differ.
fn status_of(text: &[u8]) -> Status
    ensures { result ≡ (if length text.now == 0 then Status.Done else Status.Differ) }
{
    if text.is_empty() {
        Status::Done
    } else {
        Status::Differ
    }
}

/// The status and the text for an input: what makes of its first zone the second.
pub fn compare_zones(
    alloc: Global,
    invocation: &Invocation,
    comparison: Comparison,
    input: Input,
) -> Result<(Status, Pieces), Stop>
    ensures told { IfOk result (IsAnswerDue
        (Differs comparison.style comparison.serial invocation.now.origin (zone_said invocation.now.origin input) (second_said invocation.now.origin input))) }
    ensures stops { IfErr result (IsStop
        (Differs comparison.style comparison.serial invocation.now.origin (zone_said invocation.now.origin input) (second_said invocation.now.origin input))) }
{
    let before = input.zone(alloc, &invocation.origin)?;
    let after = input.second_zone(alloc, &invocation.origin)?;
    drop(input);
    let text = difference_text(alloc, comparison.style, comparison.serial, before, after)?;
    Ok((status_of(&text), Pieces::of(alloc, text)))
}

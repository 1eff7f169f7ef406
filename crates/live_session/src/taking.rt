//! The zone that a session begins with.
ghost use Rattle.std.specs.Prelude.{◌≡◌, ◌++◌, [], ℕ, List, IfOk, OnOk};
ghost use Rattle.live_session.specs.Prelude.{Blames};
ghost use Rattle.live_session.specs.Takings.{CanTakeRest, CanTakeZone, StopsLines, StopsZone};
ghost use Rattle.live_session.specs.Zones.{EndsZone, TookZone};

use crate::zone::{ZoneBytes, take_line, take_lines};
use outer_io::{Sink, Talk};
use session_lines::{Intake, NoMore};
use std::alloc::Global;

// More reads than a zone and a line have bytes: each but the last gives some.
const READS: u64 = 67108864;

// Takes what is left, of which no more comes.
fn take_rest(zone: &mut ZoneBytes, intake: &mut Intake) -> Result<(), NoMore>
    requires { CanTakeRest zone.old intake.old }
    ensures whole { OnOk result (EndsZone zone.new (zone.old.bytes.items ++ intake.old.bytes)) }
    ensures nothing { OnOk result (intake.new.bytes ≡ []) }
    ensures ended { intake.new.ended ≡ intake.old.ended }
    ensures stops { StopsLines result zone.new intake.new.bytes (zone.old.bytes.items ++ intake.old.bytes) }
{
    let rest = intake.len();
    if rest == 0 {
        return Ok(());
    }
    take_line(zone, intake, rest)?;
    Ok(())
}

/// Takes the zone's bytes, up to a line `%%` or to the end of input. Nothing is due before.
pub fn take_zone<K: Sink, T: Talk<K>>(
    alloc: Global,
    intake: &mut Intake,
    talk: &mut T,
    sink: &K,
) -> Result<ZoneBytes, NoMore>
    requires { CanTakeZone T.is_settled intake.old (T.given talk.old) (K.held sink.now).taken }
    ensures gave { (bytes : List ℕ) × (T.given talk.new ≡ T.given talk.old ++ bytes) }
    ensures took { IfOk result (TookZone (T.given talk.old) (T.given talk.new) (T.ended talk.new) intake.new) }
    ensures stops { StopsZone result (T.given talk.old) (T.given talk.new) intake.new.bytes }
    ensures talk { Blames result NoMore.Fault (T.faults talk.old) (T.faults talk.new) }
{
    let mut zone = ZoneBytes {
        bytes: Vec::new(alloc),
        lines: 0,
    };
    'reads: for _ in 0..READS {
        let came = take_lines(&mut zone, intake)?;
        if came {
            return Ok(zone);
        }
        if intake.has_ended() {
            take_rest(&mut zone, intake)?;
            return Ok(zone);
        }
        intake.take(talk, sink)?;
    }
    // So many reads have given more than a zone and a line have.
    unreachable!();
}

//! The lines of a zone, one by one.
ghost use Rattle.std.specs.Prelude.{◌≡◌, ◌≤◌, ◌<◌, ◌++◌, ◌∷◌, ◌^◌, [], ℕ, List, Ok, true, false, length, take, IfOk};
ghost use Rattle.live_session.specs.Prelude.{is_cut, lines_of};
ghost use Rattle.live_session.specs.Takings.{CanTakeLine, IsUncut, LetsGo, StopsLine, StopsLines};
ghost use Rattle.live_session.specs.Zones.{CutOff, HasTaken, IsZoneSoFar};

use session_lines::{Intake, LONGEST, NoMore};
use zone_text::line_at;

/// The bytes of a zone, and how many lines came: its own, and the one behind it.
#[derive(Drop)]
pub struct ZoneBytes {
    pub bytes: Vec<u8>,
    pub lines: u64,
}

// Whether a line is the one behind a zone.
fn is_cut(line: &[u8]) -> bool
    requires some { 0 < length line.now }
    requires short { length line.now ≤ 2 ^ 24 }
    ensures { (text : List ℕ) → lines_of line.now ≡ text ∷ [] → result ≡ is_cut text }
{
    let (upto, _next) = line_at(line, 0);
    &line[..upto as usize] == b"%%".as_slice()
}

/// Takes the next line, which has so many bytes. Tells whether it is the one behind the zone.
pub fn take_line(zone: &mut ZoneBytes, intake: &mut Intake, count: usize) -> Result<bool, NoMore>
    requires { CanTakeLine zone.old intake.old count }
    ensures went { IfOk result (HasTaken zone.old zone.new (take count intake.old.bytes)) }
    ensures lets_go { LetsGo result intake.old intake.new count }
    ensures stops { StopsLine result zone.old zone.new intake.old intake.new count }
{
    if count > LONGEST {
        return Err(NoMore::TooLong);
    }
    let line = intake.front(count);
    let cuts = is_cut(line);
    if !cuts {
        if zone.bytes.len() + count > LONGEST {
            return Err(NoMore::TooLong);
        }
        zone.bytes.extend_from_slice(line)?;
    }
    zone.lines += 1;
    intake.let_go(count);
    Ok(cuts)
}

/// Takes the whole lines that are there, up to the one behind the zone. Tells whether that came.
pub fn take_lines(zone: &mut ZoneBytes, intake: &mut Intake) -> Result<bool, NoMore>
    requires zone { IsZoneSoFar zone.old }
    ensures not_yet { result ≡ Ok false → IsUncut zone.new intake.new.bytes (zone.old.bytes.items ++ intake.old.bytes) }
    ensures came { result ≡ Ok true → CutOff zone.new (zone.old.bytes.items ++ intake.old.bytes) intake.new.bytes }
    ensures ended { intake.new.ended ≡ intake.old.ended }
    ensures stops { StopsLines result zone.new intake.new.bytes (zone.old.bytes.items ++ intake.old.bytes) }
{
    'lines: while let Some(count) = intake.next_line() {
        let cuts = take_line(zone, intake, count)?;
        if cuts {
            return Ok(true);
        }
    }
    Ok(false)
}

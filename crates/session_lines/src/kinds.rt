//! The words of refusals.
ghost use Rattle.std.specs.Prelude.{◌≡◌, ◌≤◌, length};
ghost use Rattle.session_lines.specs.Prelude.{script_kind_text};

use job_model::ScriptKind;

/// The kind of a refusal of a script's line.
pub fn script_kind_name(kind: ScriptKind) -> &'static [u8]
    ensures text { result.now ≡ script_kind_text kind }
    ensures short { length result.now ≤ 13 }
{
    match kind {
        ScriptKind::NoWorker => b"NoWorker",
        ScriptKind::BadCommand => b"BadCommand",
        ScriptKind::BadName => b"BadName",
        ScriptKind::BadType => b"BadType",
        ScriptKind::BadRdata => b"BadRdata",
        ScriptKind::BadNumber => b"BadNumber",
        ScriptKind::OpenBlock => b"OpenBlock",
        ScriptKind::NotHeld => b"NotHeld",
        ScriptKind::AlreadyHeld => b"AlreadyHeld",
        ScriptKind::TooMany { limit: _ } => b"TooMany",
    }
}

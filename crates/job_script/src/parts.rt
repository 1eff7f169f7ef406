//! The two parts of a job's input.
ghost use Rattle.std.specs.Prelude.{◌≡◌, ◌<◌, ◌≤◌, ◌+◌, ◌^◌, ℕ, List, length, take, drop};
ghost use Rattle.job_script.specs.Prelude.{zone_lines, script_lines, script_start, lines_of, ArePartsOf, IsCutAt};

use zone_text::line_at;

/// The bytes of an input's zone, and those of its script, whose first line has the number `first_line`.
#[derive(Clone, Copy, Debug)]
pub struct Parts<'a> {
    pub zone: &'a [u8],
    pub script: &'a [u8],
    pub first_line: u32,
}

// Where an input is cut: the zone's bytes end at `zone_end`, the script's begin at `script_from`.
#[derive(Clone, Copy)]
struct Cut {
    zone_end: u32,
    script_from: u32,
    first_line: u32,
}

// The place of the first line that is `%%`, or the end.
fn find_cut(bytes: &[u8]) -> Cut
    requires { length bytes.now ≤ 2 ^ 24 }
    ensures cut { IsCutAt bytes.now result.zone_end result.script_from result.first_line }
{
    let mut at = 0u32;
    let mut line = 1u32;
    while (at as usize) < bytes.len() {
        let (upto, next) = line_at(bytes, at);
        if &bytes[at as usize..upto as usize] == b"%%".as_slice() {
            return Cut {
                zone_end: at,
                script_from: next,
                first_line: line + 1,
            };
        }
        at = next;
        line += 1;
    }
    Cut {
        zone_end: at,
        script_from: at,
        first_line: line,
    }
}

/// Cuts an input at the first line that is `%%`. Without one it is all zone.
pub fn split(bytes: &[u8]) -> Parts<'_>
    requires { length bytes.now ≤ 2 ^ 24 }
    ensures parts { ArePartsOf bytes.now result }
{
    let cut = find_cut(bytes);
    Parts {
        zone: &bytes[..cut.zone_end as usize],
        script: &bytes[cut.script_from as usize..],
        first_line: cut.first_line,
    }
}

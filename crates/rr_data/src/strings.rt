//! Strings as tokens.
ghost use Rattle.std.specs.Prelude.{map, Ok, Err, Result};
ghost use Rattle.rr_data.specs.Prelude.{All, unescaped, string_octets, read_strings, IsPlaced, token_view, Pushes};

use crate::refusal::RdataRefusal;
use zone_text::{Token, push_unescaped};

// The most octets of a string (RFC 1035, section 3.3).
const MOST_STRING: usize = 255;

// The most octets of a record's data.
const MOST_DATA: usize = 65_535;

// Pushes a string behind its length.
#[tactic(auto, using(crate::proofs::StringLemmas::string_rules))]
fn push_string(text: &[u8], at: usize, out: &mut Vec<u8>) -> Result<(), RdataRefusal>
    ensures { Pushes result out.old.items out.new.items (string_octets at (unescaped text.now)) }
{
    let start = out.len();
    out.push(0)?;
    if !push_unescaped(text, out)? {
        return Err(RdataRefusal::BadRdata { at });
    }
    let len = out.len() - start - 1;
    if len > MOST_STRING {
        return Err(RdataRefusal::LongString { at });
    }
    out[start] = len as u8;
    Ok(())
}

// Pushes strings.
#[tactic(auto, using(crate::proofs::StringLemmas::strings_rules), unfolding(zone_model::specs::Data::read_strings))]
pub fn push_strings(bytes: &[u8], tokens: &[Token], out: &mut Vec<u8>) -> Result<(), RdataRefusal>
    requires placed { All (IsPlaced bytes.now) tokens.now }
    ensures { Pushes result out.old.items out.new.items (read_strings 0 65535 (map (token_view bytes.now) tokens.now)) }
{
    let mut room = MOST_DATA;
    for (at, token) in tokens.iter().enumerate() {
        let start = out.len();
        push_string(token.text(bytes), at, out)?;
        let len = out.len() - start;
        if len > room {
            return Err(RdataRefusal::BadRdata { at });
        }
        room -= len;
    }
    Ok(())
}

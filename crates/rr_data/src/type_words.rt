//! Types as words.
ghost use Rattle.std.specs.Prelude.{◌≡◌, Some, None, Option};
ghost use Rattle.zone_model.specs.DataWords.{type_named, numbered, data_type};

use crate::splits::MOST_SHORT;
use crate::types::type_spelled;
use zone_text::{is_word, number};

// The number behind a word that a text begins with.
fn numbered(text: &[u8], word: &[u8]) -> Option<u16>
    ensures { result ≡ numbered word.now text.now }
{
    let n = word.len();
    if n > text.len() || !is_word(&text[..n], word) {
        return None;
    }
    Some(number(&text[n..], MOST_SHORT)? as u16)
}

// A number may be a data type's.
fn data_type(number: u16) -> Option<u16>
    ensures { result ≡ data_type number }
{
    if number == 0 || number == 41 || (number >= 128 && number <= 255) {
        return None;
    }
    Some(number)
}

/// The type that a word names by its mnemonic or as `TYPE` and a number (RFC 3597, section 5), letters of either case;
/// None where it is none of those known here, or a number that no data has.
#[tactic(auto, unfolding(zone_model::specs::DataWords::type_named))]
pub fn read_type(text: &[u8]) -> Option<u16>
    ensures { result ≡ type_named text.now }
{
    match type_spelled(text) {
        Some(row) => Some(row.number),
        None => data_type(numbered(text, b"TYPE")?),
    }
}

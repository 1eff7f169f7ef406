//! The classes of records (RFC 1035, section 3.2.4).
ghost use Rattle.std.specs.Prelude.{◌≡◌, Some, None, Option};
ghost use Rattle.zone_model.specs.DataWords.{class_named, class_numbered};

use zone_text::{all_digits, is_word};

fn class_numbered(text: &[u8]) -> Option<bool>
    ensures { result ≡ class_numbered text.now }
{
    if text.len() > 5 && is_word(&text[..5], b"CLASS") && all_digits(&text[5..]) {
        Some(false)
    } else {
        None
    }
}

/// Whether a word is a class: the one that is taken, or another; None where it is none.
#[tactic(auto, unfolding(zone_model::specs::DataWords::class_named))]
pub fn class_named(text: &[u8]) -> Option<bool>
    ensures { result ≡ class_named text.now }
{
    if is_word(text, b"IN") || is_word(text, b"CLASS1") {
        return Some(true);
    }
    if is_word(text, b"CH")
        || is_word(text, b"CS")
        || is_word(text, b"HS")
        || is_word(text, b"NONE")
        || is_word(text, b"ANY")
    {
        return Some(false);
    }
    class_numbered(text)
}

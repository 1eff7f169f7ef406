//! What the tokens of a line outside blocks are, by the command word and the number of tokens.
ghost use Rattle.std.specs.Prelude.{◌≡◌, ◌<◌, ◌∷◌, map, Some, None, Option, IfSome};
ghost use Rattle.zones_script.specs.Prelude.{option_map, All, IsPlaced, token_view, phrase_view, PhrasePlaced};
ghost use Rattle.zones_script.specs.Phrases as phrases;

use job_model::Weight;
use job_script::says;
use zone_text::Token;

/// What a line says, with the tokens of its arguments.
#[derive(Clone, Copy)]
pub enum Phrase {
    /// The next worker's list begins.
    Worker,
    /// A question for a name and a type.
    Gets(Token, Token),
    /// A block of the zone of an origin begins.
    Opens(Weight, Token),
    /// The zone of an origin comes into the table.
    Attaches(Token),
    /// It leaves it.
    Detaches(Token),
}

// A word with an origin behind it.
fn of_zone(bytes: &[u8], word: Token, origin: Token) -> Option<Phrase>
    requires word { IsPlaced bytes.now word }
    requires origin { IsPlaced bytes.now origin }
    ensures said { option_map (phrase_view bytes.now) result ≡ phrases.of_zone (token_view bytes.now word) (token_view bytes.now origin) }
    ensures placed { IfSome result (PhrasePlaced bytes.now) }
{
    if says(bytes, word, b"write") {
        Some(Phrase::Opens(Weight::Light, origin))
    } else if says(bytes, word, b"update") {
        Some(Phrase::Opens(Weight::Heavy, origin))
    } else if says(bytes, word, b"attach") {
        Some(Phrase::Attaches(origin))
    } else if says(bytes, word, b"detach") {
        Some(Phrase::Detaches(origin))
    } else {
        None
    }
}

// A word with an argument and what stands behind that.
#[tactic(auto, unfolding(crate::specs::Phrases::phrase_of))]
fn argued(bytes: &[u8], word: Token, first: Token, rest: &[Token]) -> Option<Phrase>
    requires word { IsPlaced bytes.now word }
    requires first { IsPlaced bytes.now first }
    requires rest { All (IsPlaced bytes.now) rest.now }
    ensures said { option_map (phrase_view bytes.now) result
        ≡ phrases.phrase_of (token_view bytes.now word ∷ token_view bytes.now first ∷ map (token_view bytes.now) rest.now) }
    ensures placed { IfSome result (PhrasePlaced bytes.now) }
{
    let Some((rtype, behind)) = rest.split_first() else {
        return of_zone(bytes, word, first);
    };
    if behind.is_empty() && says(bytes, word, b"get") {
        Some(Phrase::Gets(first, *rtype))
    } else {
        None
    }
}

/// What tokens say; None where they are no command.
#[tactic(auto, unfolding(crate::specs::Phrases::phrase_of))]
pub fn phrase_of(bytes: &[u8], tokens: &[Token]) -> Option<Phrase>
    requires { All (IsPlaced bytes.now) tokens.now }
    ensures said { option_map (phrase_view bytes.now) result ≡ phrases.phrase_of (map (token_view bytes.now) tokens.now) }
    ensures placed { IfSome result (PhrasePlaced bytes.now) }
{
    let (word, arguments) = tokens.split_first()?;
    if let Some((first, rest)) = arguments.split_first() {
        return argued(bytes, *word, *first, rest);
    }
    if says(bytes, *word, b"worker") {
        Some(Phrase::Worker)
    } else {
        None
    }
}

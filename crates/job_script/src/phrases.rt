//! What the tokens of a script's line are, by the command word and the number of tokens.
ghost use Rattle.std.specs.Prelude.{◌≡◌, ◌<◌, ◌≤◌, ◌∷◌, [], ℕ, List, length, map, Some, None, Option, IfSome};
ghost use Rattle.job_script.specs.Prelude.{option_map, All, Labels, IsPlaced, token_view, phrase_view, PhrasePlaced};
ghost use Rattle.job_model.specs.Phrases as phrases;

use crate::questions::{Asked, asked_of};
use crate::words::{lone, pair, says};
use job_model::{Ending, Weight};
use zone_text::Token;

/// What a line says, with the tokens of its arguments.
#[derive(Clone, Copy)]
pub enum Phrase<'a> {
    /// The next worker's list begins.
    Worker,
    /// A question.
    Asks(Asked),
    /// A question for the whole response for a name and a type.
    AsksWhole(Token, Token),
    /// A snapshot is taken.
    Holds,
    /// A question to the snapshot.
    AsksHeld(Asked),
    /// The same to the snapshot.
    AsksHeldWhole(Token, Token),
    /// The snapshot is given back.
    Releases,
    /// A block begins.
    Opens(Weight),
    /// A prerequisite: whether a record is wanted or not, of an owner, perhaps of a type.
    Needs(bool, Token, Option<Token>),
    /// An addition of an owner, time to live, type and data.
    Adds(Token, Token, Token, &'a [Token]),
    /// A deletion of a name, perhaps of a type, perhaps of data.
    Deletes(Token, &'a [Token]),
    /// A block ends.
    Ends(Ending),
    /// A compaction.
    Compacts,
}

fn lone_word<'a>(bytes: &[u8], word: Token) -> Option<Phrase<'a>>
    requires { IsPlaced bytes.now word }
    ensures said { (origin : Labels) → option_map (phrase_view origin bytes.now) result ≡ phrases.lone_word (token_view bytes.now word) }
    ensures placed { IfSome result (PhrasePlaced bytes.now) }
{
    if says(bytes, word, b"worker") {
        return Some(Phrase::Worker);
    }
    if says(bytes, word, b"hold") {
        return Some(Phrase::Holds);
    }
    if says(bytes, word, b"release") {
        return Some(Phrase::Releases);
    }
    if says(bytes, word, b"write") {
        return Some(Phrase::Opens(Weight::Light));
    }
    if says(bytes, word, b"update") {
        return Some(Phrase::Opens(Weight::Heavy));
    }
    if says(bytes, word, b"commit") {
        return Some(Phrase::Ends(Ending::Commit));
    }
    if says(bytes, word, b"rollback") {
        return Some(Phrase::Ends(Ending::Rollback));
    }
    if says(bytes, word, b"compact") {
        return Some(Phrase::Compacts);
    }
    None
}

fn adds<'a>(bytes: &[u8], owner: Token, rest: &'a [Token]) -> Option<Phrase<'a>>
    requires owner { IsPlaced bytes.now owner }
    requires rest { All (IsPlaced bytes.now) rest.now }
    ensures said { (origin : Labels) → option_map (phrase_view origin bytes.now) result
        ≡ phrases.adds (token_view bytes.now owner) (map (token_view bytes.now) rest.now) }
    ensures placed { IfSome result (PhrasePlaced bytes.now) }
{
    let Some((ttl, behind_ttl)) = rest.split_first() else {
        return None;
    };
    let Some((rtype, rdata)) = behind_ttl.split_first() else {
        return None;
    };
    if rdata.is_empty() {
        return None;
    }
    Some(Phrase::Adds(owner, *ttl, *rtype, rdata))
}

// A prerequisite.
fn needs<'a>(bytes: &[u8], wanted: bool, owner: Token, rest: &[Token]) -> Option<Phrase<'a>>
    requires owner { IsPlaced bytes.now owner }
    requires rest { All (IsPlaced bytes.now) rest.now }
    ensures said { (origin : Labels) → option_map (phrase_view origin bytes.now) result
        ≡ phrases.needs wanted (token_view bytes.now owner) (map (token_view bytes.now) rest.now) }
    ensures placed { IfSome result (PhrasePlaced bytes.now) }
{
    let Some((rtype, behind)) = rest.split_first() else {
        return Some(Phrase::Needs(wanted, owner, None));
    };
    if behind.is_empty() {
        Some(Phrase::Needs(wanted, owner, Some(*rtype)))
    } else {
        None
    }
}

// What is asked of the snapshot.
fn asks_held<'a>(bytes: &[u8], word: Token, operands: &[Token]) -> Option<Phrase<'a>>
    requires word { IsPlaced bytes.now word }
    requires operands { All (IsPlaced bytes.now) operands.now }
    ensures said { (origin : Labels) → option_map (phrase_view origin bytes.now) result
        ≡ phrases.asks_held origin (token_view bytes.now word) (map (token_view bytes.now) operands.now) }
    ensures placed { IfSome result (PhrasePlaced bytes.now) }
{
    if says(bytes, word, b"ask") {
        let (name, rtype) = pair(operands)?;
        return Some(Phrase::AsksHeldWhole(name, rtype));
    }
    match asked_of(bytes, word, operands) {
        Some(asked) => Some(Phrase::AsksHeld(asked)),
        None => None,
    }
}

// What another word says with an argument and what stands behind that.
fn argued<'a>(bytes: &[u8], word: Token, first: Token, rest: &'a [Token]) -> Option<Phrase<'a>>
    requires word { IsPlaced bytes.now word }
    requires operands { IsPlaced bytes.now first × All (IsPlaced bytes.now) rest.now }
    ensures said { (origin : Labels) → option_map (phrase_view origin bytes.now) result
        ≡ phrases.argued origin (token_view bytes.now word) (token_view bytes.now first) (map (token_view bytes.now) rest.now) }
    ensures placed { IfSome result (PhrasePlaced bytes.now) }
{
    if says(bytes, word, b"add") {
        return adds(bytes, first, rest);
    }
    if says(bytes, word, b"del") {
        return Some(Phrase::Deletes(first, rest));
    }
    if says(bytes, word, b"ask") {
        let rtype = lone(rest)?;
        return Some(Phrase::AsksWhole(first, rtype));
    }
    if says(bytes, word, b"at") {
        return asks_held(bytes, first, rest);
    }
    if says(bytes, word, b"need") {
        return needs(bytes, true, first, rest);
    }
    if says(bytes, word, b"neednot") {
        return needs(bytes, false, first, rest);
    }
    None
}

/// What tokens say; None where they are no command.
#[tactic(auto, unfolding(job_model::specs::Phrases::phrase_of))]
pub fn phrase_of<'a>(bytes: &[u8], tokens: &'a [Token]) -> Option<Phrase<'a>>
    requires { All (IsPlaced bytes.now) tokens.now }
    ensures said { (origin : Labels) → option_map (phrase_view origin bytes.now) result ≡ phrases.phrase_of origin (map (token_view bytes.now) tokens.now) }
    ensures placed { IfSome result (PhrasePlaced bytes.now) }
{
    let (word, arguments) = tokens.split_first()?;
    if let Some(asked) = asked_of(bytes, *word, arguments) {
        return Some(Phrase::Asks(asked));
    }
    match arguments.split_first() {
        Some((first, rest)) => argued(bytes, *word, *first, rest),
        None => lone_word(bytes, *word),
    }
}

//! The questions of scripts: the word of each, and what its operands say.
ghost use Rattle.std.specs.Prelude.{◌≡◌, map, Option, IfSome};
ghost use Rattle.job_script.specs.Prelude.{option_map, All, Labels, IsPlaced, token_view, asked_view, whole_view, AskedPlaced};
ghost use Rattle.job_model.specs.Questions as questions;
ghost use Rattle.job_script.specs.declared.questions.Asked.TheVariants as asked;

use crate::words::{lone, names_word, pair, says};
use dns_name::Name;
use job_model::{Question, ScriptKind, Stretch};
use master_file::{name_word, type_word};
use zone_text::Token;

/// A question as it stands in a line: which one it is, and the tokens of its operands.
#[derive(Clone, Copy)]
pub enum Asked {
    Get(Token, Token),
    Find(Token),
    Walk(Token, Token),
    Back(Token, Token),
    Stat,
    Dump,
}

/// The question that a word asks with its operands; None where it is no such word, or the operands are fewer or more.
#[inline(always)]
#[tactic(auto, unfolding(job_model::specs::Questions::asked_of))]
pub fn asked_of(bytes: &[u8], word: Token, operands: &[Token]) -> Option<Asked>
    requires word { IsPlaced bytes.now word }
    requires operands { All (IsPlaced bytes.now) operands.now }
    ensures said { (origin : Labels) → option_map (asked_view origin bytes.now) result
        ≡ questions.asked_of origin (token_view bytes.now word) (map (token_view bytes.now) operands.now) }
    ensures placed { IfSome result (AskedPlaced bytes.now) }
{
    if says(bytes, word, b"get") {
        let (name, rtype) = pair(operands)?;
        return Some(Asked::Get(name, rtype));
    }
    if says(bytes, word, b"find") {
        return Some(Asked::Find(lone(operands)?));
    }
    if says(bytes, word, b"walk") {
        let (name, number) = pair(operands)?;
        return Some(Asked::Walk(name, number));
    }
    if says(bytes, word, b"back") {
        let (name, number) = pair(operands)?;
        return Some(Asked::Back(name, number));
    }
    if !operands.is_empty() {
        return None;
    }
    if says(bytes, word, b"stat") {
        return Some(Asked::Stat);
    }
    if says(bytes, word, b"dump") {
        return Some(Asked::Dump);
    }
    None
}

/// A question for the records of a name and a type. The name is read last, so that it isn't copied over another call.
#[inline(always)]
pub fn get_of(
    bytes: &[u8],
    origin: &Name,
    name: Token,
    rtype: Token,
) -> Result<Question, ScriptKind>
    requires name { IsPlaced bytes.now name }
    requires rtype { IsPlaced bytes.now rtype }
    ensures { result ≡ asked_view origin.now bytes.now (asked.Get name rtype) }
{
    let number = type_word(bytes, rtype);
    let Some(text) = name.plain(bytes) else {
        return Err(ScriptKind::BadName);
    };
    let Ok(name) = Name::read(text, origin) else {
        return Err(ScriptKind::BadName);
    };
    match number {
        Some(number) => Ok(Question::Get(name, number)),
        None => Err(ScriptKind::BadType),
    }
}

/// A question for the whole response for a name and a type.
pub fn whole_of(
    bytes: &[u8],
    origin: &Name,
    name: Token,
    rtype: Token,
) -> Result<Question, ScriptKind>
    requires name { IsPlaced bytes.now name }
    requires rtype { IsPlaced bytes.now rtype }
    ensures { result ≡ whole_view origin.now bytes.now name rtype }
{
    let Some(name) = name_word(bytes, origin, name) else {
        return Err(ScriptKind::BadName);
    };
    let Some(number) = type_word(bytes, rtype) else {
        return Err(ScriptKind::BadType);
    };
    Ok(Question::Respond(name, number))
}

// A question for what there is of a name.
fn find_of(bytes: &[u8], origin: &Name, name: Token) -> Result<Question, ScriptKind>
    requires { IsPlaced bytes.now name }
    ensures { result ≡ asked_view origin.now bytes.now (asked.Find name) }
{
    let Some(name) = name_word(bytes, origin, name) else {
        return Err(ScriptKind::BadName);
    };
    Ok(Question::Find(name))
}

// Where a list of names begins, and how many are wanted.
fn stretch_of(
    bytes: &[u8],
    origin: &Name,
    start: Token,
    number: Token,
) -> Result<Stretch, ScriptKind>
    requires start { IsPlaced bytes.now start }
    requires number { IsPlaced bytes.now number }
    ensures { result ≡ questions.name_and_number origin.now (token_view bytes.now start, token_view bytes.now number) }
{
    let Some(start) = name_word(bytes, origin, start) else {
        return Err(ScriptKind::BadName);
    };
    let Some(most) = names_word(bytes, number) else {
        return Err(ScriptKind::BadNumber);
    };
    Ok(Stretch { start, most })
}

/// What a question says, or why its operands are refused. Those of a name return at once, so that the name isn't copied
/// once more.
pub fn question_of(bytes: &[u8], origin: &Name, asked: &Asked) -> Result<Question, ScriptKind>
    requires { AskedPlaced bytes.now asked.now }
    ensures { result ≡ asked_view origin.now bytes.now asked.now }
{
    match asked {
        Asked::Get(name, rtype) => return get_of(bytes, origin, *name, *rtype),
        Asked::Find(name) => return find_of(bytes, origin, *name),
        Asked::Walk(start, number) => {
            stretch_of(bytes, origin, *start, *number).map(Question::Walk)
        }
        Asked::Back(start, number) => {
            stretch_of(bytes, origin, *start, *number).map(Question::Back)
        }
        Asked::Stat => Ok(Question::Stat),
        Asked::Dump => Ok(Question::Dump),
    }
}

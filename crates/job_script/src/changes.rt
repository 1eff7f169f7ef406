//! What the words of a prerequisite and of an operation say.
ghost use Rattle.std.specs.Prelude.{◌≡◌, ◌∷◌, List, map, IfSome, None, Some};
ghost use Rattle.job_script.specs.Prelude.{option_map, All, data_of, type_word, IsPlaced, token_view, Says, operation_view, prerequisite_view};
ghost use Rattle.job_script.specs.Prelude.{operation_said, phrase_view, PhrasePlaced};
ghost use Rattle.job_model.specs.Arguments as jobs;

use crate::phrases::Phrase;
use crate::refusal::{JobRefusal, refused};
use crate::words::Line;
use dns_name::Name;
use job_model::ScriptKind;
use master_file::{name_word, time_word, type_word};
use rr_data::{Rdata, RdataRefusal};
use zone_change::{NewRecord, Operation, Prerequisite};
use zone_text::Token;

// The name that a token says, at or under the origin.
fn inner_name(line: Line, token: Token) -> Result<Name, JobRefusal>
    requires { IsPlaced line.bytes.now token }
    ensures { Says result (λ name. name)
        (jobs.needed line.entry.number ScriptKind.BadName (jobs.inner_name line.entry.origin.now (token_view line.entry.bytes.now token))) }
{
    match name_word(line.bytes, line.origin, token) {
        Some(inner) if inner.is_under(line.origin) => Ok(inner),
        _ => Err(refused(line.number, ScriptKind::BadName)),
    }
}

// The number of the type that a token says.
fn type_of(line: Line, token: Token) -> Result<u16, JobRefusal>
    requires { IsPlaced line.bytes.now token }
    ensures { Says result (λ t. t) (jobs.needed line.entry.number ScriptKind.BadType (type_word (token_view line.entry.bytes.now token))) }
{
    match type_word(line.bytes, token) {
        Some(number) => Ok(number),
        None => Err(refused(line.number, ScriptKind::BadType)),
    }
}

/// A prerequisite.
#[tactic(auto, unfolding(job_model::specs::Arguments::prerequisite_of))]
pub fn prerequisite_of(
    line: Line,
    wanted: bool,
    owner: Token,
    rtype: Option<Token>,
) -> Result<Prerequisite, JobRefusal>
    requires owner { IsPlaced line.bytes.now owner }
    requires rtype { IfSome rtype (IsPlaced line.bytes.now) }
    ensures { Says result prerequisite_view
        (jobs.prerequisite_of line.entry.origin.now line.entry.number wanted (token_view line.entry.bytes.now owner)
        (option_map (token_view line.entry.bytes.now) rtype)) }
{
    let Some(rtype) = rtype else {
        let owner = inner_name(line, owner)?;
        return Ok(Prerequisite {
            owner,
            rtype: None,
            wanted,
        });
    };
    let owner = inner_name(line, owner)?;
    let number = type_of(line, rtype)?;
    Ok(Prerequisite {
        owner,
        rtype: Some(number),
        wanted,
    })
}

// The data of a record, or a refusal of the line.
fn rdata_of(line: Line, rtype: u16, tokens: &[Token]) -> Result<Rdata, JobRefusal>
    requires { All (IsPlaced line.bytes.now) tokens.now }
    ensures { Says result (λ r. r)
        (jobs.octets_needed line.entry.number (data_of line.entry.origin.now rtype (map (token_view line.entry.bytes.now) tokens.now))) }
{
    match Rdata::read(line.alloc, rtype, line.bytes, tokens, line.origin) {
        Ok(rdata) => Ok(rdata),
        Err(RdataRefusal::Memory) => Err(JobRefusal::Memory),
        Err(RdataRefusal::BadRdata { .. }) => Err(refused(line.number, ScriptKind::BadRdata)),
        Err(RdataRefusal::LongString { .. }) => Err(refused(line.number, ScriptKind::BadRdata)),
    }
}

// An addition. This function and the next one stand by themselves, since a function clears the room for all names that it
// may read.
#[inline(never)]
#[tactic(auto, unfolding(job_model::specs::Arguments::addition_of))]
fn addition_of(
    line: Line,
    owner: Token,
    ttl: Token,
    rtype: Token,
    tokens: &[Token],
) -> Result<Operation, JobRefusal>
    requires words { IsPlaced line.bytes.now owner × IsPlaced line.bytes.now ttl × IsPlaced line.bytes.now rtype }
    requires tokens { All (IsPlaced line.bytes.now) tokens.now }
    ensures { Says result operation_view
        (jobs.addition_of line.entry.origin.now line.entry.number (token_view line.entry.bytes.now owner) (token_view line.entry.bytes.now ttl)
        (token_view line.entry.bytes.now rtype) (map (token_view line.entry.bytes.now) tokens.now)) }
{
    let owner = inner_name(line, owner)?;
    let Some(ttl) = time_word(line.bytes, ttl) else {
        return Err(refused(line.number, ScriptKind::BadNumber));
    };
    let rtype = type_of(line, rtype)?;
    let rdata = rdata_of(line, rtype, tokens)?;
    Ok(Operation::Add(NewRecord {
        owner,
        rtype,
        ttl,
        rdata,
    }))
}

// A deletion of a name, of its RRset of a type, or of one record.
#[inline(never)]
#[tactic(auto, unfolding(job_model::specs::Arguments::deletion_of))]
fn deletion_of(line: Line, owner: Token, rest: &[Token]) -> Result<Operation, JobRefusal>
    requires owner { IsPlaced line.bytes.now owner }
    requires rest { All (IsPlaced line.bytes.now) rest.now }
    ensures { Says result operation_view
        (jobs.deletion_of line.entry.origin.now line.entry.number (token_view line.entry.bytes.now owner) (map (token_view line.entry.bytes.now) rest.now)) }
{
    let Some((rtype, tokens)) = rest.split_first() else {
        let owner = inner_name(line, owner)?;
        return Ok(Operation::DeleteName(owner));
    };
    let owner = inner_name(line, owner)?;
    let rtype = type_of(line, *rtype)?;
    if tokens.is_empty() {
        return Ok(Operation::DeleteSet(owner, rtype));
    }
    let rdata = rdata_of(line, rtype, tokens)?;
    Ok(Operation::DeleteRecord(owner, rtype, rdata))
}

/// The operation that a line says, if it says one.
pub fn operation_of(line: Line, phrase: &Phrase) -> Result<Operation, JobRefusal>
    requires { PhrasePlaced line.bytes.now phrase.now }
    ensures { Says result operation_view
        (operation_said line.entry.origin.now line.entry.number (phrase_view line.entry.origin.now line.entry.bytes.now phrase.now)) }
{
    match phrase {
        Phrase::Adds(owner, ttl, rtype, tokens) => addition_of(line, *owner, *ttl, *rtype, tokens),
        Phrase::Deletes(owner, rest) => deletion_of(line, *owner, rest),
        _ => Err(refused(line.number, ScriptKind::BadCommand)),
    }
}

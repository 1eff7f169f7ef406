//! What entries say.
ghost use Rattle.std.specs.Prelude.{◌≡◌, ◌≤◌, ◌-◌, ℕ, List, length, map, Some, Ok, Err, Result, IfOk, OnOk};
ghost use Rattle.master_file.specs.Prelude.{All, directive, record_says, entry_says, last_line, set_time_word, set_origin_word, one_argument};
ghost use Rattle.master_file.specs.Prelude.{placed, data_of, Gives, Reads, IsPlaced, token_view, reader_view, front_view, AllHeld};

use crate::front::{Front, front_of, is_directive, name_word, time_word};
use crate::records::{Reader, line_of, minimum_behind, time_for};
use dns_name::Name;
use rr_data::{Rdata, RdataRefusal};
use std::alloc::Global;
use zone_model::ZoneKind;
use zone_text::{Token, ZoneRefusal, is_word, refuse};

// Reads the data behind the type. What is refused is the token's line, or the last line where one is missing.
fn read_data(
    alloc: Global,
    last: u32,
    front: Front,
    bytes: &[u8],
    words: &[Token],
    origin: &Name,
    rdata: &mut Rdata,
) -> Result<(), ZoneRefusal>
    requires placed { All (IsPlaced bytes.now) words.now }
    requires len { front.len ≤ length words.now }
    ensures { Gives result rdata.new (let f = front_view bytes.now words.now front in placed last f.rest (data_of origin.now f.rtype f.rest)) }
{
    let rest = &words[front.len..];
    match rdata.read_again(alloc, front.rtype, bytes, rest, origin) {
        Ok(()) => Ok(()),
        Err(RdataRefusal::Memory) => Err(refuse(0, ZoneKind::Memory)),
        Err(RdataRefusal::BadRdata { at }) | Err(RdataRefusal::LongString { at }) => {
            Err(refuse(line_of(last, rest, at), ZoneKind::BadRdata))
        }
    }
}

// The record of an owner that words say.
#[tactic(auto, unfolding(zone_model::specs::MasterFile::record_says))]
fn read_record(
    alloc: Global,
    apex: &Name,
    last: u32,
    owner: &Name,
    bytes: &[u8],
    words: &[Token],
    reader: &mut Reader,
) -> Result<(), ZoneRefusal>
    requires placed { All (IsPlaced bytes.now) words.now }
    requires held { AllHeld apex.now reader.old.owners.owned.entries }
    ensures held { OnOk result (AllHeld apex.now reader.new.owners.owned.entries) }
    ensures gives { Gives result (reader_view reader.new) (record_says apex.now last owner.now (map (token_view bytes.now) words.now)
        (reader_view reader.old)) }
{
    let front = front_of(bytes, last, words)?;
    read_data(
        alloc,
        last,
        front,
        bytes,
        words,
        &reader.origin,
        &mut reader.rdata,
    )?;
    let octets = reader.rdata.octets();
    let Some(time) = time_for(front.time, front.rtype, octets, reader) else {
        return Err(refuse(last, ZoneKind::NoTtl));
    };
    let minimum = minimum_behind(front.rtype, octets, reader);
    reader
        .owners
        .add(alloc, apex, last, owner, front.rtype, time, &reader.rdata)?;
    reader.last_time = front.time.or(reader.last_time);
    reader.minimum = minimum;
    reader.owner = Some(*owner);
    Ok(())
}

// A directive that sets the time.
fn set_time(bytes: &[u8], token: Token, reader: &mut Reader) -> Result<(), ZoneRefusal>
    requires { IsPlaced bytes.now token }
    ensures same { reader.new.owners ≡ reader.old.owners }
    ensures gives { Gives result (reader_view reader.new) (set_time_word (reader_view reader.old) (token_view bytes.now token)) }
{
    let Some(time) = time_word(bytes, token) else {
        return Err(refuse(token.line, ZoneKind::BadTtl));
    };
    reader.set_time = Some(time);
    Ok(())
}

// A directive that sets the origin.
fn set_origin(bytes: &[u8], token: Token, reader: &mut Reader) -> Result<(), ZoneRefusal>
    requires { IsPlaced bytes.now token }
    ensures same { reader.new.owners ≡ reader.old.owners }
    ensures gives { Gives result (reader_view reader.new) (set_origin_word (reader_view reader.old) (token_view bytes.now token)) }
{
    let Some(name) = name_word(bytes, &reader.origin, token) else {
        return Err(refuse(token.line, ZoneKind::BadName));
    };
    reader.origin = name;
    Ok(())
}

// The one argument of a directive.
fn one_argument(last: u32, arguments: &[Token]) -> Result<Token, ZoneRefusal>
    ensures reads { (bytes : List ℕ) → Reads result (token_view bytes) (one_argument last (map (token_view bytes) arguments.now)) }
    ensures placed { (bytes : List ℕ) → All (IsPlaced bytes) arguments.now → IfOk result (IsPlaced bytes) }
{
    if arguments.len() == 0 {
        return Err(refuse(last, ZoneKind::BadToken));
    }
    if arguments.len() > 1 {
        return Err(refuse(arguments[1].line, ZoneKind::BadToken));
    }
    Ok(arguments[0])
}

// A directive.
#[tactic(auto, unfolding(zone_model::specs::MasterFile::directive))]
fn read_directive(
    bytes: &[u8],
    token: Token,
    arguments: &[Token],
    reader: &mut Reader,
) -> Result<(), ZoneRefusal>
    requires placed { IsPlaced bytes.now token }
    requires all_placed { All (IsPlaced bytes.now) arguments.now }
    ensures same { reader.new.owners ≡ reader.old.owners }
    ensures gives { Gives result (reader_view reader.new) (directive (token_view bytes.now token) (map (token_view bytes.now) arguments.now)
        (reader_view reader.old)) }
{
    let text = token.text(bytes);
    if is_word(text, b"$INCLUDE") {
        return Err(refuse(token.line, ZoneKind::Include));
    }
    if is_word(text, b"$TTL") {
        let argument = one_argument(token.line, arguments)?;
        return set_time(bytes, argument, reader);
    }
    if is_word(text, b"$ORIGIN") {
        let argument = one_argument(token.line, arguments)?;
        return set_origin(bytes, argument, reader);
    }
    Err(refuse(token.line, ZoneKind::BadToken))
}

#[tactic(auto, using(crate::proofs::RecordLemmas::line_last))]
fn last_line(first: u32, tokens: &[Token]) -> u32
    ensures { (bytes : List ℕ) → result ≡ last_line first (map (token_view bytes) tokens.now) }
{
    if tokens.is_empty() {
        first
    } else {
        tokens[tokens.len() - 1].line
    }
}

/// What an entry says that begins on a line, perhaps with a space or tab.
#[tactic(auto, unfolding(zone_model::specs::MasterFile::entry_says))]
pub fn read_entry(
    alloc: Global,
    apex: &Name,
    line: u32,
    blank: bool,
    bytes: &[u8],
    tokens: &[Token],
    reader: &mut Reader,
) -> Result<(), ZoneRefusal>
    requires placed { All (IsPlaced bytes.now) tokens.now }
    requires held { AllHeld apex.now reader.old.owners.owned.entries }
    ensures held { OnOk result (AllHeld apex.now reader.new.owners.owned.entries) }
    ensures gives { Gives result (reader_view reader.new) (entry_says apex.now line blank (map (token_view bytes.now) tokens.now) (reader_view reader.old)) }
{
    let Some((first, rest)) = tokens.split_first() else {
        return Ok(());
    };
    let last = last_line(first.line, rest);
    if blank {
        let Some(owner) = reader.owner else {
            return Err(refuse(line, ZoneKind::NoOwner));
        };
        return read_record(alloc, apex, last, &owner, bytes, tokens, reader);
    }
    if is_directive(bytes, *first) {
        return read_directive(bytes, *first, rest, reader);
    }
    let Some(owner) = name_word(bytes, &reader.origin, *first) else {
        return Err(refuse(first.line, ZoneKind::BadName));
    };
    read_record(alloc, apex, last, &owner, bytes, rest, reader)
}

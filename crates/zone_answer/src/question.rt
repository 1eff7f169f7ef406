//! Questions and their answers.

ghost use Rattle.std.specs.Prelude.{◌≡◌, ◌≤◌, [], List, length, true, IfOk};
ghost use Rattle.zone_answer.specs.Prelude.{most_item_octets, Row, Version, LeadsTo, answer, behind, followed, going_on, is_under, IsGiven, Shows, ShowsSome};

use crate::answers::Answer;
use crate::kind::Kind;
use crate::rows::Rows;
use crate::sink::RowSink;
use crate::step::{Next, step};
use crate::walker::Walker;
use dns_name::Name;
use rr_data::item_buffer;
use std::alloc::{AllocError, Global};
use trie_read::Reading;

/// How many aliases are gathered at most.
const MOST_ALIASES: u8 = 16;

/// The answer to a question of a name and a type, from one version of the zone of an origin.
pub fn answer<V: Reading>(
    alloc: Global,
    version: &mut V,
    origin: &Name,
    name: &Name,
    rtype: u16,
) -> Result<Answer, AllocError>
    requires { ShowsSome (V.holds version.old) }
    ensures same { version.new ≡ version.old }
    ensures answer { (zone : Version) → Shows (V.holds version.old) zone → IfOk result (λ a. a ≡ answer origin.now zone name.now rtype) }
{
    let mut item = item_buffer(alloc)?;
    let mut walker = Walker::new();
    let mut rows = Rows::new(alloc);
    let kind = answer_into(
        alloc,
        version,
        origin,
        name,
        rtype,
        &mut item,
        &mut walker,
        &mut rows,
    )?;
    Ok(Answer::new(kind, rows))
}

/// Hands the records of an answer to a sink that has none yet, and tells the answer's kind. A run of questions may share the buffer that
/// items are read into and the walker: they take longer to clear than a name to find.
pub fn answer_into<V: Reading, S: RowSink>(
    alloc: Global,
    version: &mut V,
    origin: &Name,
    name: &Name,
    rtype: u16,
    item: &mut [u8],
    walker: &mut Walker,
    rows: &mut S,
) -> Result<Kind, AllocError>
    requires shown { ShowsSome (V.holds version.old) }
    requires none { S.has rows.old [] }
    requires room { most_item_octets ≤ length item.old }
    ensures same { version.new ≡ version.old }
    ensures answer { (zone : Version) → Shows (V.holds version.old) zone → IfOk result (IsGiven (S.has rows.new) (answer origin.now zone name.now rtype)) }
{
    if !name.is_under(origin) {
        return Ok(Kind::Outside);
    }
    answer_under(alloc, version, origin, name, rtype, item, walker, rows)
}

/// The same for a name that is known to be the origin or to lie under it: the octets of both aren't compared again.
#[inline(always)]
pub fn answer_under<V: Reading, S: RowSink>(
    alloc: Global,
    version: &mut V,
    origin: &Name,
    name: &Name,
    rtype: u16,
    item: &mut [u8],
    walker: &mut Walker,
    rows: &mut S,
) -> Result<Kind, AllocError>
    requires shown { ShowsSome (V.holds version.old) }
    requires under { is_under name.now origin.now ≡ true }
    requires none { S.has rows.old [] }
    requires room { most_item_octets ≤ length item.old }
    ensures same { version.new ≡ version.old }
    ensures answer { (zone : Version) → Shows (V.holds version.old) zone → IfOk result (IsGiven (S.has rows.new) (answer origin.now zone name.now rtype)) }
{
    if let Next::Ends(kind) = step(alloc, version, origin, name, rtype, walker, item, rows)? {
        return Ok(kind);
    }
    follow(alloc, version, origin, rtype, item, walker, rows)
}

// Goes on with the target of a first alias, which the walker has. It stands by itself, since a function clears the room for all names
// that it may read.
#[inline(never)]
fn follow<V: Reading, S: RowSink>(
    alloc: Global,
    version: &mut V,
    origin: &Name,
    rtype: u16,
    item: &mut [u8],
    walker: &mut Walker,
    rows: &mut S,
) -> Result<Kind, AllocError>
    requires shown { ShowsSome (V.holds version.old) }
    requires room { most_item_octets ≤ length item.old }
    ensures same { version.new ≡ version.old }
    ensures answer { (zone : Version) (given : List Row) → Shows (V.holds version.old) zone → S.has rows.old given
        → IfOk result (IsGiven (S.has rows.new) (behind given (going_on (followed 15 origin.now zone rtype) (LeadsTo walker.old.target)))) }
{
    for _ in 1..MOST_ALIASES {
        let Some(target) = walker.target else {
            return Ok(Kind::Answered);
        };
        if !target.is_under(origin) {
            return Ok(Kind::Answered);
        }
        if let Next::Ends(kind) = step(
            alloc, version, origin, &target, rtype, walker, item, rows,
        )? {
            return Ok(kind);
        }
    }
    Ok(Kind::Answered)
}

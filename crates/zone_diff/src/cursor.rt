//! Records and RRsets that are looked at once, beside others.
ghost use Rattle.std.specs.Prelude.{◌≡◌, []};
ghost use Rattle.zone_diff.specs.Prelude.{records_ahead, reached, is_first, sets_ahead, set_ahead, sets_reached};

use rr_data::{ItemView, RecordViews, SetView};
use std::cmp::Ordering;

/// The records of an RRset from one on.
#[derive(Drop)]
pub struct RecordCursor<'a> {
    ahead: Option<&'a [u8]>,
    behind: RecordViews<'a>,
}

impl<'a> RecordCursor<'a> {
    /// All of them.
    pub fn new(set: &SetView<'a>) -> Self
        ensures { records_ahead result.ahead result.behind ≡ set.now.records }
    {
        let mut behind = set.records();
        let ahead = behind.next();
        RecordCursor { ahead, behind }
    }

    /// None of them.
    pub fn none(set: &SetView<'a>) -> Self
        ensures { records_ahead result.ahead result.behind ≡ [] }
    {
        RecordCursor {
            ahead: None,
            behind: set.records(),
        }
    }

    /// Passes the records below some octets, and tells whether these are ahead.
    pub fn reach(&mut self, octets: &[u8]) -> bool
        ensures left { records_ahead self.new.ahead self.new.behind ≡ reached octets.now (records_ahead self.old.ahead self.old.behind) }
        ensures there { result ≡ is_first octets.now (reached octets.now (records_ahead self.old.ahead self.old.behind)) }
    {
        while let Some(first) = self.ahead {
            match octets.cmp(first) {
                Ordering::Less => return false,
                Ordering::Equal => return true,
                Ordering::Greater => self.ahead = self.behind.next(),
            }
        }
        false
    }
}

/// The RRsets of an entry from one on.
#[derive(Drop)]
pub struct SetCursor<'a> {
    ahead: Option<SetView<'a>>,
    behind: ItemView<'a>,
}

impl<'a> SetCursor<'a> {
    /// All of them.
    pub fn new(mut sets: ItemView<'a>) -> Self
        ensures { sets_ahead result.ahead result.behind ≡ sets.entry }
    {
        let ahead = sets.next();
        SetCursor {
            ahead,
            behind: sets,
        }
    }

    /// Passes the RRsets below a type, and gives the one of that type if it is ahead.
    pub fn reach(&mut self, rtype: u16) -> Option<SetView<'a>>
        ensures left { sets_ahead self.new.ahead self.new.behind ≡ sets_reached rtype (sets_ahead self.old.ahead self.old.behind) }
        ensures there { result ≡ set_ahead rtype (sets_reached rtype (sets_ahead self.old.ahead self.old.behind)) }
    {
        while let Some(first) = &self.ahead {
            match rtype.cmp(&first.rtype()) {
                Ordering::Less => return None,
                Ordering::Equal => return Some(first.with_ttl(first.ttl())),
                Ordering::Greater => self.ahead = self.behind.next(),
            }
        }
        None
    }
}

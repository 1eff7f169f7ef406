//! Sixteen workers beside each other on a table that is too small for all that they write.
use crate::runs::outcomes_of;
use job_report::{Cause, Outcome, Told};
use std::alloc::{AllocError, Global};
use std::process::Abort;
use std::test::Fail;

/// Sixteen workers of 250 blocks, each of which adds a record of 300 octets and is followed by a question for it.
fn crowded_script(alloc: Global) -> Result<String, AllocError> {
    let octets = "5".repeat(alloc, 600)?;
    let mut script = String::new(alloc);
    for number in 0..4000 {
        let (worker, block) = (number / 250, number % 250);
        if block == 0 {
            script.push_str("worker\n")?;
        }
        let owner = format!(in alloc; "w{worker:03}b{block:03}")?;
        writeln!(script, "update\nadd {owner} 60 TYPE65280 \\# 300 {octets}")?;
        writeln!(script, "commit\nget {owner} A")?;
    }
    Ok(script)
}

/// What is counted of outcomes.
#[derive(Drop)]
pub(crate) struct Tally {
    /// By its number, how often a version was made.
    made: Vec<u32>,
    committed: u64,
    full: u64,
    /// How often a worker was shown an older version than before.
    fell: u64,
}

impl Tally {
    /// Of versions up to a last one.
    pub(crate) fn new(alloc: Global, last: usize) -> Result<Tally, AllocError> {
        Ok(Tally {
            made: Vec::from_elem(alloc, 0, last.saturating_add(1))?,
            committed: 0,
            full: 0,
            fell: 0,
        })
    }

    /// Counts a block that made a version.
    fn commit(&mut self, version: u64) {
        self.committed = self.committed.saturating_add(1);
        if let Some(times) = self.made.get_mut(version as usize) {
            *times = times.saturating_add(1);
        }
    }

    /// Counts an outcome of a worker that had been shown a version before, and answers the version that it shows.
    pub(crate) fn count(&mut self, seen: u64, outcome: &Outcome) -> u64 {
        if outcome.version < seen {
            self.fell = self.fell.saturating_add(1);
        }
        match &outcome.told {
            Told::Committed => self.commit(outcome.version),
            Told::Refused(Cause::Full { .. }) => self.full = self.full.saturating_add(1),
            _ => {}
        }
        outcome.version
    }

    /// However workers meet whose blocks add a name each: each version was made once, no worker was shown an older one than
    /// before, and each of so many blocks has made one or found no room.
    pub(crate) fn check(&self, rt: &impl Abort, blocks: u64, version: u64, names: u64) {
        let once = self.made.iter().filter(|times| **times == 1).count();
        assert_eq!(rt; self.committed, version);
        assert_eq!(rt; once as u64, version);
        assert_eq!(rt; names, version.saturating_add(1));
        assert_eq!(rt; self.committed.saturating_add(self.full), blocks);
        assert!(rt; self.full > 0);
        assert_eq!(rt; self.fell, 0);
    }
}

#[test]
fn a_crowd_fills_a_small_table(rt: HostRuntime) -> Result<(), Fail> {
    let script = crowded_script(rt.alloc())?;
    let finished = outcomes_of(&rt, rt.alloc(), script.as_str())?;
    assert_eq!(rt; finished.outcomes.len(), 16);
    let mut tally = Tally::new(rt.alloc(), 4000)?;
    for outcomes in finished.outcomes.iter() {
        assert_eq!(rt; outcomes.list.len(), 500);
        outcomes
            .list
            .iter()
            .fold(0, |seen, outcome| tally.count(seen, outcome));
    }
    tally.check(&rt, 4000, finished.version, finished.names);
    Ok(())
}

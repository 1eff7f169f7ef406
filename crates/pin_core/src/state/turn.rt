//! The writer's rounds: it marks each pass by its pin, and helps one that is about to look.
ghost use Rattle.std.specs.Prelude.{◌≡◌, ◌==◌, ◌<◌, ◌≤◌, length, slice_set, replicate, filter};
ghost use Rattle.pin_core.specs.Prelude.{list_any, list_all, mark_at, turn_of, mark_of, is_settled};
ghost use Rattle.pin_core.specs.Prelude.{names_version, kept_by_round, round_checked, scanned, assigned};
ghost use Rattle.pin_core.specs.declared.kept.Mark.TheVariants as mark;

use super::State;
use crate::event::Step;
use crate::kept::{Kept, Mark};
use crate::words::{CUR, ENTERING, FIRST_PIN, IDLE, pin_after_exchange, version_of_pin};

/// What a pin says of its pass.
fn mark_of_pin(pin: u64) -> Mark
    ensures { result ≡ mark_of pin }
{
    if pin == IDLE {
        Mark::Idle
    } else if pin == ENTERING {
        Mark::Entering
    } else {
        Mark::Pinned(version_of_pin(pin))
    }
}

fn is_settled_mark(mark: Mark) -> bool
    ensures { result ≡ is_settled mark }
{
    match mark {
        Mark::Idle | Mark::Pinned(_) => true,
        Mark::Blank | Mark::Entering => false,
    }
}

fn names(mark: Mark, version: u64) -> bool
    ensures { result ≡ names_version version mark }
{
    match mark {
        Mark::Pinned(other) => other == version,
        _ => false,
    }
}

fn is_named(marks: &[Mark], version: u64) -> bool
    ensures { result ≡ list_any (names_version version) marks.now }
{
    marks.iter().any(|mark| names(*mark, version))
}

fn are_settled(marks: &[Mark]) -> bool
    ensures { result ≡ list_all is_settled marks.now }
{
    marks.iter().all(|mark| is_settled_mark(*mark))
}

/// Drops each version that is neither current nor named by a mark.
fn drop_unnamed(kept: &mut Vec<Kept>, version: u64, marks: &[Mark])
    ensures { kept.new.items ≡ kept_by_round (turn_of version kept.old.items marks.now) }
{
    kept.retain(|k| k.version == version || is_named(marks, k.version));
}

/// A new round begins.
pub(super) fn clear_marks(marks: &mut [Mark])
    ensures { marks.new ≡ replicate (length marks.old) mark.Blank }
{
    marks.fill(Mark::Blank);
}

/// Marks the pass by its pin. Once each mark is idle or pinned the round ends: what no mark names is dropped.
fn mark_pass(kept: &mut Vec<Kept>, marks: &mut [Mark], version: u64, p: usize, pin: u64)
    requires { p < length marks.old }
    ensures { turn_of version kept.new.items marks.new
        ≡ round_checked (length marks.old) (turn_of version kept.old.items (slice_set marks.old p (mark_of pin))) }
{
    marks[p] = mark_of_pin(pin);
    if are_settled(marks) {
        drop_unnamed(kept, version, marks);
        clear_marks(marks);
    }
}

impl State {
    /// The writer looks at a pin.
    pub(super) fn scan(&mut self, p: usize) -> Step
        requires { p < self.old.size.passes }
        ensures after { self.new ≡ (scanned self.old p).0 }
        ensures answer { result ≡ (scanned self.old p).1 }
    {
        let pin = self.words[FIRST_PIN + p];
        mark_pass(&mut self.kept, &mut self.marks, self.version, p, pin);
        Step::Done
    }

    /// The writer pins the current version for a pass that it found about to look, unless the pass went on by itself.
    pub(super) fn assign(&mut self, p: usize) -> Step
        requires { p < self.old.size.passes }
        ensures after { self.new ≡ (assigned self.old p (mark_at self.old.turn.marks p)).0 }
        ensures answer { result ≡ (assigned self.old p (mark_at self.old.turn.marks p)).1 }
    {
        match self.marks[p] {
            Mark::Entering => {
                let pin = pin_after_exchange(self.words[FIRST_PIN + p], self.words[CUR]);
                self.words[FIRST_PIN + p] = pin;
                mark_pass(&mut self.kept, &mut self.marks, self.version, p, pin);
                Step::Done
            }
            _ => Step::Refused,
        }
    }
}

//! What a pass does.
ghost use Rattle.std.specs.Prelude.{◌≡◌, ◌<◌};
ghost use Rattle.pin_core.specs.Prelude.{entered, looked, settled, shown, left, learned, stage_at};

use super::State;
use crate::event::{Half, Step};
use crate::image::is_in_image_of;
use crate::kept::Stage;
use crate::words::{
    CUR, ENTERING, FIRST_PIN, IDLE, pin_after_exchange, place_of_half, version_of_pin,
};

impl State {
    /// Its pin says that it is about to look.
    pub(super) fn enter(&mut self, p: usize) -> Step
        requires { p < self.old.size.passes }
        ensures after { self.new ≡ (entered self.old p (stage_at self.old.stages p)).0 }
        ensures answer { result ≡ (entered self.old p (stage_at self.old.stages p)).1 }
    {
        match self.stages[p] {
            Stage::Idle => {
                self.words[FIRST_PIN + p] = ENTERING;
                self.stages[p] = Stage::Entered;
                Step::Done
            }
            _ => Step::Refused,
        }
    }

    /// It looks at the current version.
    pub(super) fn look(&mut self, p: usize) -> Step
        requires { p < self.old.size.passes }
        ensures after { self.new ≡ (looked self.old p (stage_at self.old.stages p)).0 }
        ensures answer { result ≡ (looked self.old p (stage_at self.old.stages p)).1 }
    {
        match self.stages[p] {
            Stage::Entered => {
                self.stages[p] = Stage::Looked(self.words[CUR]);
                Step::Done
            }
            _ => Step::Refused,
        }
    }

    /// It pins what it has looked at, or what the writer has assigned to it since.
    pub(super) fn settle(&mut self, p: usize) -> Step
        requires { p < self.old.size.passes }
        ensures after { self.new ≡ (settled self.old p (stage_at self.old.stages p)).0 }
        ensures answer { result ≡ (settled self.old p (stage_at self.old.stages p)).1 }
    {
        let Stage::Looked(word) = self.stages[p] else {
            return Step::Refused;
        };
        let pin = pin_after_exchange(self.words[FIRST_PIN + p], word);
        let version = version_of_pin(pin);
        self.words[FIRST_PIN + p] = pin;
        self.stages[p] = Stage::Pinned(version);
        self.seen[p] = version;
        Step::Pinned { version }
    }

    /// It is idle again.
    pub(super) fn leave(&mut self, p: usize) -> Step
        requires { p < self.old.size.passes }
        ensures after { self.new ≡ (left self.old p (stage_at self.old.stages p)).0 }
        ensures answer { result ≡ (left self.old p (stage_at self.old.stages p)).1 }
    {
        match self.stages[p] {
            Stage::Pinned(_) => {
                self.words[FIRST_PIN + p] = IDLE;
                self.stages[p] = Stage::Idle;
                Step::Done
            }
            _ => Step::Refused,
        }
    }

    /// A word of its version's image.
    pub(super) fn read(&self, p: usize, at: u32, half: Half) -> Step
        requires { p < self.now.size.passes }
        ensures { result ≡ (shown self.now at half (stage_at self.now.stages p)).1 }
    {
        let Stage::Pinned(version) = self.stages[p] else {
            return Step::Refused;
        };
        if !is_in_image_of(&self.kept, version, at) {
            return Step::Refused;
        }
        Step::Word {
            value: self.words[place_of_half(at, half)],
        }
    }

    /// It is told of a version that is there.
    pub(super) fn learn(&mut self, p: usize, version: u64) -> Step
        requires { p < self.old.size.passes }
        ensures after { self.new ≡ (learned self.old p version (stage_at self.old.stages p)).0 }
        ensures answer { result ≡ (learned self.old p version (stage_at self.old.stages p)).1 }
    {
        match self.stages[p] {
            Stage::Idle if version <= self.version => {
                self.seen[p] = self.seen[p].max(version);
                Step::Done
            }
            _ => Step::Refused,
        }
    }
}

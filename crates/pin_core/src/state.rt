//! The machine.
ghost use Rattle.std.specs.Prelude.{◌≡◌, IfOk, OnOk, OnErr, IsOk};
ghost use Rattle.pin_core.specs.Prelude.{IsSound, IsInPlace, IsStep, next, after, answers, StoppedWithin};

mod cells;
mod opening;
mod pass;
mod turn;

use crate::event::{Event, Step};
use crate::kept::{Kept, Mark, Stage};
use std::alloc::{AllocError, Global};
use std::marker::Model;

/// The shared words, how far each pass has come, and what the writer knows.
///
/// Contracts see it as a state of the machine; what holds between any two events holds of each.
#[derive(Drop)]
pub struct State {
    passes: u32,
    chunks: u32,
    words: Vec<u64>,
    stages: Vec<Stage>,
    seen: Vec<u64>,
    version: u64,
    kept: Vec<Kept>,
    marks: Vec<Mark>,
}

impl Model for State {
    ghost use Rattle.pin_core.specs.Machine.{Core};

    ghost Value = { Core };

    ghost use Rattle.pin_core.specs.Inside.{core_of, IsSoundInside};

    ghost view = { core_of };

    ghost invariant = { IsSoundInside };
}

impl State {
    /// One event. One that isn't allowed changes nothing; only a publish takes memory.
    pub fn step(&mut self, alloc: Global, event: &Event) -> Result<Step, AllocError>
        ensures step { IfOk result (λ answer. IsStep self.old event.now self.new answer) }
        ensures refused { result ≡ Ok Step.Refused → self.new ≡ self.old }
        ensures err { OnErr result (self.new ≡ self.old) }
        ensures in_place { IsInPlace event.now → IsOk result }
        ensures sound { IsSound self.new }
    {
        let step = match event {
            Event::Publish { root, cells } => self.publish(alloc, *root, &cells.items),
            _ => Ok(self.step_in_place(event)),
        };
        let _ = &self.passes; // for the proof
        step
    }

    /// Some events, one after another, and what they answer. Where memory is wanting the state is as after some of them.
    pub fn play(&mut self, alloc: Global, events: &[Event]) -> Result<Vec<Step>, AllocError>
        ensures after { OnOk result (self.new ≡ after self.old events.now) }
        ensures answers { IfOk result (λ steps. steps.items ≡ answers self.old events.now) }
        ensures err { OnErr result (StoppedWithin self.old events.now self.new) }
        ensures sound { IsSound self.new }
    {
        let mut steps = Vec::new(alloc);
        for event in events {
            steps.push(self.step(alloc, event)?)?;
        }
        let _ = &self.passes; // for the proof
        Ok(steps)
    }

    /// An event of a pass, or one of the writer's that takes no memory.
    fn step_in_place(&mut self, event: &Event) -> Step
        requires { IsInPlace event.now }
        ensures after { self.new ≡ (next self.old event.now).0 }
        ensures answer { result ≡ (next self.old event.now).1 }
    {
        match event {
            Event::Enter(pass) if *pass < self.passes => self.enter(*pass as usize),
            Event::Look(pass) if *pass < self.passes => self.look(*pass as usize),
            Event::Settle(pass) if *pass < self.passes => self.settle(*pass as usize),
            Event::Read { pass, at, half } if *pass < self.passes => {
                self.read(*pass as usize, *at, *half)
            }
            Event::Leave(pass) if *pass < self.passes => self.leave(*pass as usize),
            Event::Learn { pass, version } if *pass < self.passes => {
                self.learn(*pass as usize, *version)
            }
            Event::Scan(pass) if *pass < self.passes => self.scan(*pass as usize),
            Event::Assign(pass) if *pass < self.passes => self.assign(*pass as usize),
            Event::Give(chunk) => self.give(*chunk),
            Event::Free(chunk) => self.free(*chunk),
            Event::Write { at, half, value } => self.write(*at, *half, *value),
            _ => Step::Refused,
        }
    }
}

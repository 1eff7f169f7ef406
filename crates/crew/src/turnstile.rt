//! How a worker comes by its commands, and by what they wait with.
ghost use Rattle.std.specs.Prelude.{◌≡◌, ◌+◌, ◌<◌, length, IsSome, Some, None, slice_get};
ghost use Rattle.job_commands.specs.Calls.{Before, After, next_number};

use job_commands::{Entered, Gate, counted};
use job_script::Waits;
use std::sync::Wait;

/// A worker's way to its commands. These lie behind the gate: whoever has a turnstile has neither, and is handed a command when the
/// gate was told of it. The gate is told of its end once, when there is an outcome more. What waits is behind it too, so a command comes
/// with it (`Entered`).
#[derive(Drop)]
pub struct Turnstile<'a, R, C, G: Gate> {
    rt: &'a R,
    gate: &'a G,
    worker: u32,
    commands: &'a [C],
    entered: Option<usize>,
    told: usize,
}

impl<'a, R: Wait, C: Waits, G: Gate> Turnstile<'a, R, C, G> {
    /// Of a worker's number and the commands that are for it. It has not been through.
    pub fn new(rt: &'a R, gate: &'a G, worker: u32, commands: &'a [C]) -> Turnstile<'a, R, C, G>
        ensures gate { result.gate.now ≡ gate.now }
        ensures worker { result.worker ≡ worker }
        ensures commands { result.commands.now ≡ commands.now }
        ensures fresh { (result.entered ≡ None) × (result.told ≡ 0) }
    {
        Turnstile {
            rt,
            gate,
            worker,
            commands,
            entered: None,
            told: 0,
        }
    }

    /// How many commands there are.
    pub fn count(&self) -> usize
        ensures { result ≡ length self.now.commands.now }
    {
        self.commands.len()
    }

    /// The command at a place, of which the gate has been told.
    pub fn enter(&mut self, place: usize) -> Entered<'a, R, C>
        requires free { (self.old.entered ≡ None) × (place < length self.old.commands.now) }
        ensures command { slice_get self.old.commands.now place ≡ Some result.command.now }
        ensures entered { self.new.entered ≡ Some place }
        ensures same { (self.new.gate ≡ self.old.gate) × (self.new.worker ≡ self.old.worker)
            × (self.new.commands ≡ self.old.commands) × (self.new.told ≡ self.old.told) }
        ensures heard { G.hears self.old.gate.now (Before self.old.worker (next_number place)) }
    {
        self.entered = Some(place);
        self.gate.before(self.worker, counted(place));
        let commands = self.commands;
        Entered::new(self.rt, &commands[place])
    }

    /// Tells the gate that the command was run: what became of it stands behind the outcomes of those that were told before.
    pub fn leave<T>(&mut self, done: &Vec<T>)
        requires inside { IsSome self.old.entered }
        requires done { length done.now.items ≡ self.old.told + 1 }
        ensures left { (self.new.entered ≡ None) × (self.new.told ≡ length done.now.items) }
        ensures same { (self.new.gate ≡ self.old.gate) × (self.new.worker ≡ self.old.worker) × (self.new.commands ≡ self.old.commands) }
        ensures heard { (place : _) → self.old.entered ≡ Some place → G.hears self.old.gate.now (After self.old.worker (next_number place)) }
    {
        let Some(place) = self.entered.take() else {
            // It is inside.
            unreachable!();
        };
        self.told += 1;
        self.gate.after(self.worker, counted(place));
    }
}

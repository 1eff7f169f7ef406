//! A command whose turn has come.
ghost use Rattle.std.specs.Prelude.{◌≡◌};

use job_script::Waits;
use std::sync::Wait;

/// A command with what it may wait by: whoever is handed a question so can't make it wait for who writes.
#[derive(Clone, Copy)]
pub struct Entered<'a, R, C> {
    rt: &'a R,
    command: &'a C,
}

impl<'a, R: Wait, C: Waits> Entered<'a, R, C> {
    pub fn new(rt: &'a R, command: &'a C) -> Entered<'a, R, C>
        ensures { result.command.now ≡ command.now }
    {
        Entered { rt, command }
    }

    pub fn command(&self) -> &'a C
        ensures { result.now ≡ self.now.command.now }
    {
        self.command
    }

    /// For a command that may wait.
    pub fn rt(&self) -> &'a R
        requires { C.waits self.now.command.now }
    {
        self.rt
    }
}

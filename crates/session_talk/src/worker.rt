//! Who runs the commands of a session.
ghost use Rattle.std.specs.Prelude.{◌≡◌, ℕ, Bool, List, IfOk, false};
ghost use Rattle.session_talk.specs.Prelude.{Command as Asked, Labels, command_view, held_after};
ghost use Rattle.session_talk.specs.Workers.{ComesTo, EndsAt, MayRun, Opened, RunsOneMore, StandsAsBefore};

use job_report::Outcome;
use job_script::Command;
use std::alloc::AllocError;

/// The last version, and how many names it has.
#[derive(Clone, Copy)]
pub struct LastVersion {
    pub version: u64,
    pub names: u64,
}

/// One worker alone at the index of a zone, who runs commands one by one.
pub trait Worker: Drop {
    ghost use Rattle.job_report.specs.declared.outcomes.Outcome.{Outcome as Ran};

    /// The zone's origin.
    ghost origin: { Self → Labels };

    /// It can go on. One who wanted memory for a command can't.
    ghost is_ready: { Self → Type 0 };

    /// A snapshot is held.
    ghost holds: { Self → Bool };

    /// These commands came to these outcomes, on an index that was opened so.
    ghost has_run: { Self → Opened → List Asked → List Ran → Type 0 };

    /// Runs the next command.
    fn run(&mut self, command: &Command) -> Result<Outcome, AllocError>
        requires { MayRun (is_ready self.old) (holds self.old) (origin self.old) (command_view command.now) }
        ensures ready { IfOk result (λ _. is_ready self.new) }
        ensures origin { IfOk result (λ _. origin self.new ≡ origin self.old) }
        ensures held { IfOk result (λ _. holds self.new ≡ held_after (holds self.old) (command_view command.now)) }
        ensures ran { RunsOneMore result (has_run self.old) (has_run self.new) (command_view command.now) };

    /// Shows that what the commands came to is all that has become of the index. It takes no memory and waits for nobody.
    fn tell(&mut self)
        requires ready { is_ready self.old }
        ensures same { StandsAsBefore (is_ready self.new) (origin self.old) (origin self.new) (holds self.old) (holds self.new) }
        ensures ran { (o : Opened) (commands : List Asked) (os : List Ran) → has_run self.old o commands os → has_run self.new o commands os }
        ensures told { (o : Opened) (commands : List Asked) (os : List Ran) → has_run self.old o commands os → (last : ℕ) × ComesTo o commands os last };

    /// Measures the last version. A snapshot that is held is given back.
    fn end(&mut self) -> LastVersion
        requires ready { is_ready self.old }
        ensures free { holds self.new ≡ false }
        ensures ends { (o : Opened) (commands : List Asked) (os : List Ran) → has_run self.old o commands os → EndsAt o commands os result };
}

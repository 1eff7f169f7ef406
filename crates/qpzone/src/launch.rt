//! What the program makes of the words that the runtime gives, and of the status.
ghost use Rattle.std.specs.IoError.{error_kind};
ghost use Rattle.std.specs.Prelude.{◌≡◌, IfErr, IfOk, IsErr, IsOk};
ghost use Rattle.std.specs.Process.{exit_status};
ghost use Rattle.std.specs.declared.io.ErrorKind.TheVariants.{OutOfMemory};
ghost use Rattle.std.specs.Vec.Iter.{into_iter_items};
ghost use Rattle.qp_main.specs.Statuses.{code_of};
ghost use Rattle.qp_main.specs.declared.status.Status.{Status};
ghost use Rattle.qpzone.specs.Programs.{Ran, words_in};

use outer_io::{Sink, Source};
use qp_main::{Gate, Status, run};
use std::alloc::{AllocError, Global};
use std::env::Args;
use std::io;
use std::process::ExitCode;
use std::sync::Wait;
use std::thread::Threads;

/// A gate that does nothing.
struct Open;

impl Gate for Open {
    ghost hears = { λ _ _. Unit {0} };

    fn before(&self, _worker: u32, _command: u32) {}

    fn after(&self, _worker: u32, _command: u32) {}
}

/// These words in a list.
fn listed(alloc: Global, args: Args) -> Result<Vec<String>, AllocError>
    ensures { IfOk result (λ words. words.items ≡ into_iter_items args) }
{
    let mut words = Vec::new(alloc);
    for word in args {
        words.push(word)?;
    }
    Ok(words)
}

/// The words of the command line. Where one of them isn't UTF-8 there are none, and no words are no command line. Memory is wanting only where the
/// runtime wanted it, or for words that it gave.
fn words_of(alloc: Global, args: io::Result<Args>) -> Result<Vec<String>, AllocError>
    ensures words { IfOk result (λ words. words.items ≡ words_in args) }
    ensures none { IfErr args (λ error. (error_kind error ≡ OutOfMemory → ⊥) → IsOk result) }
    ensures memory { IfErr args (λ error. error_kind error ≡ OutOfMemory → IsErr result) }
{
    match args {
        Ok(args) => listed(alloc, args),
        Err(error) if error.kind() == io::ErrorKind::OutOfMemory => Err(AllocError),
        Err(_) => Ok(Vec::new(alloc)),
    }
}

/// Runs the program on the words that the runtime gives, and tells the exit code that its status says.
pub fn run_args<R: Threads + Wait + Sync, S: Source, K: Sink>(
    rt: &R,
    alloc: Global,
    args: io::Result<Args>,
    source: &mut S,
    sink: &mut K,
) -> ExitCode
    ensures ran { (status : Status) × (exit_status result ≡ code_of status)
        × Ran (words_in args) (S.given source.old) (S.given source.new) (S.ended source.new) (K.held sink.old) (K.held sink.new) status }
{
    let Ok(words) = words_of(alloc, args) else {
        return ExitCode::from(Status::NoMemory.code());
    };
    let status = run(rt, alloc, &words, source, sink, &Open);
    ExitCode::from(status.code())
}

//! The program over any source and sink.
ghost use Rattle.std.specs.Prelude.{◌≡◌, ◌<◌, ◌∷◌, [], ℕ, List, IfOk, IfErr, OnOk, codes};
ghost use Rattle.std.specs.Prelude.{Ok, Err, false, Option, Result, IfSome, MatchOption, IsSome, Some};
ghost use Rattle.qp_main.specs.Prelude.{Due, DueFor, GaveFor, zone_said, job_of, Grows, GrowsByFront};
ghost use Rattle.qp_main.specs.Prelude.{load_view, IsUnder, invocation_in, invocation_view, verb_view, IsStop, Answers, Checks};
ghost use Rattle.qp_main.specs.Prelude.{HasRun, Heard, HeardInput, JobHeard, WhereRun};
ghost use Rattle.qp_main.specs.Prelude.{SaysSession, SessionRan};
ghost use Rattle.qp_main.specs.Prelude.{DueUnder, EndsLoad, IsAnswerDue, IsUnwritten, IsWritten, Written, input_of, is_streamed};
ghost use Rattle.qp_main.specs.Prelude.{EndsRun, HearsRun, IsInput, IsLoad, RunsSession, ServesDue, ServesLoad, TellsSink, WritesDue};

use crate::differing::compare_zones;
use crate::dumping::dump_input;
use crate::feeding::answer_list;
use crate::input::Input;
use crate::items::zone_items;
use crate::living::serve_session;
use crate::needs::size_job;
use crate::refusing::Stop;
use crate::run_report::{Telling, report_job};
use crate::several::answer_zones;
use crate::sizing::report_size;
use crate::status::Status;
use crate::writing::{write_answer, write_due};
use command_line::{Invocation, Verb, invocation_of};
use index_items::zone_size;
use job_commands::Gate;
use job_make::{Load, make_text};
use job_report::Pieces;
use job_threads::table_for;
use outer_io::{ReadRefusal, Sink, Source, read_all};
use std::alloc::Global;
use std::sync::Wait;
use std::thread::Threads;

// The most bytes of an input.
const INPUT_LIMIT: u32 = 16777216;

// The status and the text for an input whose job is run. The table comes before the zone, since making it takes twice its memory for a
// while. The bytes go before the index is made.
fn answer_job<R: Threads + Wait + Sync, G: Gate>(
    rt: &R,
    alloc: Global,
    invocation: &Invocation,
    input: Input,
    telling: Telling,
    gate: &G,
) -> Result<(Status, Pieces), Stop>
    ensures told { IfOk result (IsAnswerDue (Answers telling invocation.now.chunks (job_of invocation.now.origin input))) }
    ensures stops { IfErr result (IsStop (Answers telling invocation.now.chunks (job_of invocation.now.origin input))) }
    ensures heard { IfOk result (IsAnswerDue (WhereRun (JobHeard (G.hears gate.now) (job_of invocation.now.origin input)))) }
    ensures unheard { IfErr result (IsStop (WhereRun (JobHeard (G.hears gate.now) (job_of invocation.now.origin input)))) }
{
    let job = input.job(alloc, &invocation.origin)?;
    let blank = table_for(alloc, invocation.chunks, job.workers.len())?;
    let zone = input.zone(alloc, &invocation.origin)?;
    drop(input);
    let items = zone_items(alloc, zone)?;
    let answer = report_job(rt, alloc, invocation, blank, &items, &job, telling, gate)?;
    Ok(answer)
}

// The status and the text for a zone that is only to be checked: the nodes and cells of its trie are counted, and no index is made.
fn check_zone(
    alloc: Global,
    invocation: &Invocation,
    input: Input,
) -> Result<(Status, Pieces), Stop>
    ensures told { IfOk result (IsAnswerDue (Checks invocation.now.chunks (zone_said invocation.now.origin input))) }
    ensures stops { IfErr result (IsStop (Checks invocation.now.chunks (zone_said invocation.now.origin input))) }
{
    let zone = input.zone(alloc, &invocation.origin)?;
    drop(input);
    let size = zone_size(alloc, &zone)?;
    let answer = report_size(alloc, invocation.chunks, &size)?;
    Ok(answer)
}

// Runs the bytes of an input and writes.
fn serve_input<R: Threads + Wait + Sync, K: Sink, G: Gate>(
    rt: &R,
    alloc: Global,
    invocation: &Invocation,
    bytes: Vec<u8>,
    sink: &mut K,
    gate: &G,
) -> Status
    requires { IsInput (verb_view invocation.now.verb) bytes.items }
    ensures due { ServesDue (is_streamed (verb_view invocation.now.verb)) (DueUnder (invocation_view invocation.now) bytes.items)
        (K.held sink.old) (K.held sink.new) result }
    ensures sink { TellsSink K.faults sink.old sink.new result }
    ensures unwritten { IsUnwritten (is_streamed (verb_view invocation.now.verb)) result → K.held sink.new ≡ K.held sink.old }
    ensures heard { HasRun result → HeardInput (G.hears gate.now) (verb_view invocation.now.verb) invocation.now.origin bytes.items }
{
    let input = Input::of(bytes);
    let due = match invocation.verb {
        Verb::Dump(style) => return dump_input(alloc, invocation, style, input, sink),
        Verb::Run => answer_job(rt, alloc, invocation, input, Telling::Report, gate),
        Verb::Make(_) => answer_job(rt, alloc, invocation, input, Telling::Summary, gate),
        Verb::Feed(crew) => answer_list(rt, alloc, invocation, input, crew.workers, gate),
        Verb::Check => check_zone(alloc, invocation, input),
        Verb::Size => size_job(alloc, invocation, input),
        Verb::Zones => answer_zones(rt, alloc, invocation, input, gate),
        Verb::Diff(comparison) => compare_zones(alloc, invocation, comparison, input),
        // It has no input that is read before.
        Verb::Live(_) => unreachable!(),
    };
    match due {
        Ok((status, text)) => write_answer(sink, status, &text),
        Err(Stop::Refused(status, line)) => write_due(sink, status, line.as_slice()),
        Err(Stop::Memory) => Status::NoMemory,
    }
}

// Makes a load's text, runs it and writes the summary.
fn serve_made<R: Threads + Wait + Sync, K: Sink, G: Gate>(
    rt: &R,
    alloc: Global,
    invocation: &Invocation,
    load: &Load,
    sink: &mut K,
    gate: &G,
) -> Status
    requires { IsLoad (verb_view invocation.now.verb) invocation.now.origin (load_view load.now) }
    ensures due { ServesLoad (DueFor invocation.now) (K.held sink.old) (K.held sink.new) result }
    ensures sink { TellsSink K.faults sink.old sink.new result }
    ensures load { EndsLoad result }
    ensures heard { (left : Option (List ℕ)) → HasRun result → Heard (G.hears gate.now) (Some (invocation_view invocation.now)) left }
{
    let Ok(bytes) = make_text(alloc, load.seed, load.names, load.turns, load.workers) else {
        return Status::NoMemory;
    };
    serve_input(rt, alloc, invocation, bytes, sink, gate)
}

// Reads, runs and writes.
fn serve<R: Threads + Wait + Sync, S: Source, K: Sink, G: Gate>(
    rt: &R,
    alloc: Global,
    invocation: &Invocation,
    source: &mut S,
    sink: &mut K,
    gate: &G,
) -> Status
    requires { (left : Option (List ℕ)) → input_of (verb_view invocation.now.verb) left ≡ left }
    ensures due { WritesDue (Some (invocation_view invocation.now)) S.left S.given S.ended K.held source.old source.new sink.old sink.new result }
    ensures ends { EndsRun (Some (invocation_view invocation.now)) S.left S.given S.ended S.faults K.held K.faults
        source.old source.new sink.old sink.new result }
    ensures heard { HearsRun (G.hears gate.now) (Some (invocation_view invocation.now)) S.given S.ended source.old source.new result }
{
    let bytes = match read_all(alloc, source, INPUT_LIMIT) {
        Ok(bytes) => bytes,
        Err(ReadRefusal::Fault) => return Status::SourceFault,
        Err(ReadRefusal::TooLong { .. }) => {
            return write_due(sink, Status::TooLong, b"input over 16777216 bytes\n");
        }
        Err(ReadRefusal::Memory) => return Status::NoMemory,
    };
    serve_input(rt, alloc, invocation, bytes, sink, gate)
}

// Reads or makes an input, runs it and writes.
fn serve_invocation<R: Threads + Wait + Sync, S: Source, K: Sink, G: Gate>(
    rt: &R,
    alloc: Global,
    invocation: &Invocation,
    source: &mut S,
    sink: &mut K,
    gate: &G,
) -> Status
    requires { IsUnder (verb_view invocation.now.verb) invocation.now.origin }
    ensures due { WritesDue (Some (invocation_view invocation.now)) S.left S.given S.ended K.held source.old source.new sink.old sink.new result }
    ensures ends { EndsRun (Some (invocation_view invocation.now)) S.left S.given S.ended S.faults K.held K.faults
        source.old source.new sink.old sink.new result }
    ensures heard { HearsRun (G.hears gate.now) (Some (invocation_view invocation.now)) S.given S.ended source.old source.new result }
    ensures session { RunsSession (Some (invocation_view invocation.now)) S.given S.ended K.held source.old source.new sink.old sink.new result }
{
    match invocation.verb {
        Verb::Make(load) => serve_made(rt, alloc, invocation, &load, sink, gate),
        Verb::Run => serve(rt, alloc, invocation, source, sink, gate),
        Verb::Feed(_) => serve(rt, alloc, invocation, source, sink, gate),
        Verb::Check => serve(rt, alloc, invocation, source, sink, gate),
        Verb::Size => serve(rt, alloc, invocation, source, sink, gate),
        Verb::Zones => serve(rt, alloc, invocation, source, sink, gate),
        Verb::Diff(_) => serve(rt, alloc, invocation, source, sink, gate),
        Verb::Dump(_) => serve(rt, alloc, invocation, source, sink, gate),
        Verb::Live(asked) => serve_session(rt, alloc, &invocation.origin, asked, source, sink),
    }
}

/// Runs the program: reads a job from the source, or makes one, runs it, and writes to the sink what is due; or answers a session's lines, each
/// before it reads more. The words are those of
/// the command line, the first of which is the program's name. Each worker has a thread of its own where one can be started, and
/// waits for its turn to write. The gate is told of each command by the worker's thread; of one list that is handed out to workers, by
/// the command's number in the list.
pub fn run<R: Threads + Wait + Sync, S: Source, K: Sink, G: Gate>(
    rt: &R,
    alloc: Global,
    words: &[String],
    source: &mut S,
    sink: &mut K,
    gate: &G,
) -> Status
    // The answers of committed versions: what is written whole is due for the words and the bytes that the source tells beforehand; and for those
    // that it gave in this call, which are all up to its end, whether or not it tells any.
    ensures written { IsWritten result → Written (Due (invocation_in words.now) (S.left source.old)) (K.held sink.old) (K.held sink.new) result }
    ensures given { IsWritten result → GaveFor (invocation_in words.now) (S.given source.old) (S.given source.new) (S.ended source.new)
        (λ left. Written (Due (invocation_in words.now) left) (K.held sink.old) (K.held sink.new) result) }

    // What else the status says: of a sink or a source that failed, or where memory ran out; of words that are refused, of a load, and of
    // an input that is too long.
    ensures ends { EndsRun (invocation_in words.now) S.left S.given S.ended S.faults K.held K.faults source.old source.new sink.old sink.new result }

    // Where commands were run, the gate that is handed in was told of each, by the worker's number and its own.
    ensures heard { HasRun result → GaveFor (invocation_in words.now) (S.given source.old) (S.given source.new) (S.ended source.new)
        (λ left. Heard (G.hears gate.now) (invocation_in words.now) left) }

    // A session: what lies in the sink is due for the bytes that the source gave, by each way to end.
    ensures session { SaysSession (invocation_in words.now) (λ asked origin.
        SessionRan asked origin (S.given source.old) (S.given source.new) (S.ended source.new) (K.held sink.old) (K.held sink.new) result) }
{
    match invocation_of(alloc, words) {
        Ok(Some(invocation)) => serve_invocation(rt, alloc, &invocation, source, sink, gate),
        Ok(None) => write_due(sink, Status::WordsRefused, b"words refused\n"),
        Err(_) => Status::NoMemory,
    }
}

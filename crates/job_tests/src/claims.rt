//! Four workers that put in the same names, each only where nobody has.
use crate::runs::outcomes_of;
use job_report::{Cause, Outcomes, Told};
use std::alloc::{AllocError, Global};
use std::test::Fail;
use zone_model::Refusal;

/// Four workers, each of which claims two hundred names.
fn claims_script(alloc: Global) -> Result<String, AllocError> {
    let mut script = String::new(alloc);
    for block in 0..800 {
        let (worker, name) = (block / 200, block % 200);
        if name == 0 {
            script.push_str("worker\n")?;
        }
        write!(
            script,
            "write\nneednot n{name}\nadd n{name} 60 A 192.0.2.{worker}\ncommit\n"
        )?;
    }
    Ok(script)
}

/// How many workers claimed the name of an index.
fn claimed(workers: &[Outcomes], index: usize) -> usize {
    workers
        .iter()
        .filter_map(|worker| worker.list.get(index))
        .filter(|outcome| matches!(outcome.told, Told::Committed))
        .count()
}

/// How many of a worker's blocks found that the name was there.
fn too_late(worker: &Outcomes) -> usize {
    worker
        .list
        .iter()
        .filter(|outcome| matches!(outcome.told, Told::Refused(Cause::Rule(Refusal::Prereq))))
        .count()
}

// However they meet: each name is put in by one worker, and the others are told so.
#[test]
fn each_name_is_claimed_once(rt: HostRuntime) -> Result<(), Fail> {
    let script = claims_script(rt.alloc())?;
    let finished = outcomes_of(&rt, rt.alloc(), script.as_str())?;
    for name in 0..200 {
        assert_eq!(rt; claimed(&finished.outcomes, name), 1);
    }
    let late = finished.outcomes.iter().fold(
        0usize,
        |late, worker| late.saturating_add(too_late(worker)),
    );
    assert_eq!(rt; late, 600);
    assert_eq!(rt; finished.version, 200);
    assert_eq!(rt; finished.names, 201);
    Ok(())
}

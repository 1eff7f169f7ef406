//! Zones that are asked and changed by workers beside each other, while one is detached and attached.
use crate::gates::{Open, Order, Ordered};
use crate::runs::told;
use std::alloc::{AllocError, Global};
use std::test::Fail;

/// Two zones, of which one lies below the other. Both have the name that is asked for.
const NESTED: &str =
    "%zone example.\n@ 300 SOA . . 1 1 1 1 1\nwww.sub 300 A 192.0.2.1\n%zone sub.example.\n@ 60 SOA . . 1 1 1 1 1\nwww 60 A 192.0.2.2\n%%\n";

/// A worker of 400 commands, who detaches the lower zone and attaches it again and again.
fn changer(alloc: Global) -> Result<String, AllocError> {
    let mut script = String::from_str(alloc, "worker\n")?;
    script.push_str(
        "detach sub.example.\nattach sub.example.\n"
            .repeat(alloc, 200)?
            .as_str(),
    )?;
    Ok(script)
}

/// A worker who asks for the name as often.
fn asker(alloc: Global) -> Result<String, AllocError> {
    let mut script = String::from_str(alloc, "worker\n")?;
    script.push_str("get www.sub.example. A\n".repeat(alloc, 400)?.as_str())?;
    Ok(script)
}

/// What the command of a number tells, by a version of the table.
#[derive(Clone, Copy)]
struct Line<'a> {
    command: u32,
    version: u32,
    told: &'a str,
}

/// What a line tells, if it has a version of the table and is no last one.
fn line_of(line: &str) -> Option<Line<'_>> {
    let (place, rest) = line.split_once(' ')?;
    let (_worker, command) = place.split_once('.')?;
    let (version, told) = rest.strip_prefix('t')?.split_once(' ')?;
    Some(Line {
        command: command.parse().ok()?,
        version: version.parse().ok()?,
        told,
    })
}

/// In order, the commands that make the version of their own number, or find it made: of odd numbers those that are told so,
/// and of even ones those that are told otherwise.
fn rounds_of(alloc: Global, report: &str, odd: &str, even: &str) -> Result<Vec<u32>, AllocError> {
    let mut rounds = Vec::new(alloc);
    for line in report.lines().filter_map(line_of) {
        let due = if line.command % 2 == 1 { odd } else { even };
        if line.told == due && line.version == line.command {
            rounds.push(line.command)?;
        }
    }
    rounds.sort_unstable();
    Ok(rounds)
}

/// How many lines tell an answer with this record, by an odd or an even version: the one before or behind the change that
/// has the number of the command.
fn answers(report: &str, answer: &str, record: &str, is_odd: bool) -> usize {
    report
        .lines()
        .zip(report.lines().skip(1))
        .filter(|(line, next)| {
            *next == record
                && line_of(line).is_some_and(|line| {
                    line.told == answer
                        && (line.version % 2 == 1) == is_odd
                        && line.command.wrapping_sub(line.version) < 2
                })
        })
        .count()
}

// However they meet: each answer is that of the deepest origin that was attached in the version of the table that it tells, and that version is the
// one before or behind the change of the same round.
#[test]
fn a_zone_comes_and_goes_beneath_questions(rt: HostRuntime) -> Result<(), Fail> {
    let mut script = changer(rt.alloc())?;
    script.push_str(asker(rt.alloc())?.repeat(rt.alloc(), 3)?.as_str())?;
    let gate = Ordered::new(Order::Rounds(4));
    let words = "zones --chunks 16";
    let (status, report) = told(&rt, rt.alloc(), words, NESTED, script.as_str(), &gate)?;
    assert_eq!(rt; gate.missed(), 0);
    assert_eq!(rt; status, 0);
    let changed = rounds_of(rt.alloc(), report.as_str(), "DETACHED", "ATTACHED")?;
    assert!(rt; changed.iter().copied().eq(1..401));
    let answer = "sub.example. v0 ANSWER 1";
    let lower = answers(
        report.as_str(),
        answer,
        "www.sub.example. 60 IN A 192.0.2.2",
        false,
    );
    let answer = "example. v0 ANSWER 1";
    let upper = answers(
        report.as_str(),
        answer,
        "www.sub.example. 300 IN A 192.0.2.1",
        true,
    );
    assert_eq!(rt; upper.saturating_add(lower), 1200);
    assert!(rt; upper > 0 && lower > 0);
    let last = "\nend t400 zones 2\nend example. v0 names 2\nend sub.example. v0 names 2\n";
    assert!(rt; report.ends_with(last));
    Ok(())
}

// Whoever is first: in each round one makes the change, and the other is told that it is made.
#[test]
fn two_workers_detach_the_same_zone(rt: HostRuntime) -> Result<(), Fail> {
    let script = changer(rt.alloc())?.repeat(rt.alloc(), 2)?;
    let gate = Ordered::new(Order::Rounds(2));
    let words = "zones --chunks 16";
    let (status, report) = told(&rt, rt.alloc(), words, NESTED, script.as_str(), &gate)?;
    assert_eq!(rt; gate.missed(), 0);
    assert_eq!(rt; status, 1);
    let made = rounds_of(rt.alloc(), report.as_str(), "DETACHED", "ATTACHED")?;
    assert!(rt; made.iter().copied().eq(1..401));
    let (missing, exists) = ("REFUSED missing", "REFUSED exists");
    let refused = rounds_of(rt.alloc(), report.as_str(), missing, exists)?;
    assert!(rt; refused.iter().copied().eq(1..401));
    Ok(())
}

/// Zones, a script with a worker for each, and what they are told, but for the table's versions.
#[derive(Drop)]
struct Texts {
    zones: String,
    script: String,
    told: String,
    last: String,
}

impl Texts {
    /// The zone of a worker, who asks and changes it; the third and the eleventh detach theirs.
    fn push(&mut self, worker: u32) -> Result<(), AllocError> {
        let zone = format!(in *self.zones.allocator(); "z{worker:02}")?;
        write!(
            self.zones,
            "%zone {zone}.\n@ 60 SOA . . 1 1 1 1 1\na 60 TXT {zone}\n"
        )?;
        write!(self.script, "worker\nget a.{zone}. TXT\nwrite {zone}.\n")?;
        write!(self.script, "add b 60 TXT new\ncommit\nget b.{zone}. TXT\n")?;
        write!(
            self.told,
            "{worker}.1 {zone}. v0 ANSWER 1\na.{zone}. 60 IN TXT \"{zone}\"\n"
        )?;
        write!(self.told, "{worker}.2 {zone}. v1 COMMITTED\n")?;
        write!(
            self.told,
            "{worker}.3 {zone}. v1 ANSWER 1\nb.{zone}. 60 IN TXT \"new\"\n"
        )?;
        writeln!(self.last, "end {zone}. v1 names 3")?;
        if worker % 8 == 3 {
            write!(self.script, "detach {zone}.\nget b.{zone}. TXT\n")?;
            write!(self.told, "{worker}.4 DETACHED\n{worker}.5 NOZONE\n")?;
        }
        Ok(())
    }

    /// Of sixteen zones, with their last lines.
    fn sixteen(alloc: Global) -> Result<Texts, AllocError> {
        let mut texts = Texts {
            zones: String::new(alloc),
            script: String::new(alloc),
            told: String::new(alloc),
            last: String::from_str(alloc, "end zones 14\n")?,
        };
        for worker in 1..17 {
            texts.push(worker)?;
        }
        texts.zones.push_str("%%\n")?;
        texts.told.push_str(texts.last.as_str())?;
        Ok(texts)
    }
}

/// A report without the versions of a table that was changed at most twice.
fn without_versions(alloc: Global, report: &str) -> Result<String, AllocError> {
    report
        .replace(alloc, " t0", "")?
        .replace(alloc, " t1", "")?
        .replace(alloc, " t2", "")
}

// The versions of the table hang on when two of the zones are detached; all else doesn't.
#[test]
fn sixteen_workers_have_a_zone_each(rt: HostRuntime) -> Result<(), Fail> {
    let texts = Texts::sixteen(rt.alloc())?;
    let (zones, script) = (texts.zones.as_str(), texts.script.as_str());
    let (status, report) = told(&rt, rt.alloc(), "zones --chunks 16", zones, script, &Open)?;
    assert_eq!(rt; status, 0);
    assert_eq!(rt; without_versions(rt.alloc(), report.as_str())?, texts.told);
    assert!(rt; report.contains("\nend t2 zones 14\n"));
    Ok(())
}

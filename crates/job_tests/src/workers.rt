//! Jobs and lists whose commands a gate counts or orders.
use crate::gates::{Counting, Open, Order, Ordered};
use crate::runs::{ZONE, told};
use std::alloc::{AllocError, Global};
use std::sync::atomic::Ordering;
use std::test::Fail;

#[test]
fn each_command_stands_between_its_two_calls(rt: HostRuntime) -> Result<(), Fail> {
    let gate = Counting::default();
    let script =
        "worker\nget ns A\nwrite\nadd a 60 A 192.0.2.2\ncommit\nget a A\nworker\nhold\nat get ns A\nrelease\n";
    let (status, _report) = told(
        &rt,
        rt.alloc(),
        "run --origin example.",
        ZONE,
        script,
        &gate,
    )?;
    assert_eq!(rt; status, 0);
    assert_eq!(rt; gate.calls.load(Ordering::SeqCst), 12);
    assert_eq!(rt; gate.wrong.load(Ordering::SeqCst), 0);
    Ok(())
}

/// A script on the zone, whose commands come in an order, and the reports of which one is due.
#[derive(Drop)]
struct Case {
    name: &'static str,
    words: &'static str,
    order: Order,
    script: &'static str,
    reports: &'static [&'static str],
}

/// A command waits in vain only where workers keep each other out: where they run in turn, or a turn isn't given back.
const CASES: &[Case] = &[
    Case {
        name: "a single worker",
        words: "run --origin example.",
        order: Order::Together(1),
        script: "worker\nget ns A\n",
        reports: &["1.1 v0 ANSWER 1\nns.example. 300 IN A 192.0.2.1\nend v0 names 2\n"],
    },
    Case {
        name: "a table as large as is sure to be enough",
        words: "run --origin example. --chunks 178",
        order: Order::Together(1),
        script: "worker\nget ns A\nwrite\nadd www 300 A 192.0.2.7\ncommit\nget www A\n",
        reports: &[
            "1.1 v0 ANSWER 1\nns.example. 300 IN A 192.0.2.1\n1.2 v1 COMMITTED\n1.3 v1 ANSWER 1\nwww.example. 300 IN A 192.0.2.7\nend v1 names 3\n",
        ],
    },
    Case {
        name: "two workers meet",
        words: "run --origin example.",
        order: Order::Together(2),
        script: "worker\nget ns A\nworker\nget ns A\n",
        reports: &[
            "1.1 v0 ANSWER 1\nns.example. 300 IN A 192.0.2.1\n2.1 v0 ANSWER 1\nns.example. 300 IN A 192.0.2.1\nend v0 names 2\n",
        ],
    },
    Case {
        name: "two workers take a command each",
        words: "feed --origin example. --workers 2",
        order: Order::Together(2),
        script: "get ns A\nget ns A\n",
        reports: &[
            "1.1 v0 ANSWER 1\nns.example. 300 IN A 192.0.2.1\n2.2 v0 ANSWER 1\nns.example. 300 IN A 192.0.2.1\nend v0 names 2\n",
            "2.1 v0 ANSWER 1\nns.example. 300 IN A 192.0.2.1\n1.2 v0 ANSWER 1\nns.example. 300 IN A 192.0.2.1\nend v0 names 2\n",
        ],
    },
    Case {
        name: "a snapshot keeps no writer out",
        words: "run --origin example.",
        order: Order::Behind(&[(2, 1, 1), (1, 2, 2)]),
        script: "worker\nhold\nat get ns A\nworker\nwrite\ndel ns\ncommit\nget ns A\n",
        reports: &[
            "1.1 v0 HELD\n1.2 v0 ANSWER 1\nns.example. 300 IN A 192.0.2.1\n2.1 v1 COMMITTED\n2.2 v1 NXDOMAIN\nend v1 names 1\n",
        ],
    },
    Case {
        name: "one transaction follows another",
        words: "run --origin example.",
        order: Order::Behind(&[(2, 1, 2)]),
        script: "worker\nwrite\nadd a 60 A 192.0.2.2\ncommit\nwrite\nadd b 60 A 192.0.2.3\ncommit\nworker\nget b A\n",
        reports: &[
            "1.1 v1 COMMITTED\n1.2 v2 COMMITTED\n2.1 v2 ANSWER 1\nb.example. 60 IN A 192.0.2.3\nend v2 names 4\n",
        ],
    },
];

#[test]
fn commands_come_in_an_order(rt: HostRuntime) -> Result<(), Fail> {
    for case in CASES {
        let gate = Ordered::new(case.order);
        let (status, report) = told(&rt, rt.alloc(), case.words, ZONE, case.script, &gate)?;
        let name = case.name;
        assert_eq!(rt; (gate.missed(), status), (0, 0), "{name}");
        let is_due = case.reports.iter().any(|due| *due == report.as_str());
        assert!(rt; is_due, "{name}: {report}");
    }
    Ok(())
}

/// A transaction of sixty additions of 4,070 octets, and a question by another worker.
fn crowded(alloc: Global) -> Result<String, AllocError> {
    let octets = "5".repeat(alloc, 8140)?;
    let mut script = String::from_str(alloc, "worker\nwrite\n")?;
    for number in 0..60 {
        writeln!(script, "add t{number:03} 60 TYPE65280 \\# 4070 {octets}")?;
    }
    script.push_str("commit\nworker\nget ns A\n")?;
    Ok(script)
}

// Nothing comes to be free while it runs, so to wait for room would be in vain.
#[test]
fn a_full_table_is_told_at_once(rt: HostRuntime) -> Result<(), Fail> {
    let gate = Ordered::new(Order::Behind(&[(2, 1, 1)]));
    let script = crowded(rt.alloc())?;
    let words = "run --origin example. --chunks 16";
    let (status, report) = told(&rt, rt.alloc(), words, ZONE, script.as_str(), &gate)?;
    assert_eq!(rt; gate.missed(), 0);
    assert_eq!(rt; status, 1);
    assert!(rt; report.starts_with("1.1 v0 REFUSED full at "));
    let rest = " kept 0\n2.1 v0 ANSWER 1\nns.example. 300 IN A 192.0.2.1\nend v0 names 2\n";
    assert!(rt; report.ends_with(rest));
    Ok(())
}

// It is a word, and no name begins the line.
#[test]
fn one_odd_byte_is_refused(rt: HostRuntime) -> Result<(), Fail> {
    let (status, report) = told(&rt, rt.alloc(), "run --origin example.", "", "\0\n", &Open)?;
    assert_eq!(rt; status, 3);
    assert_eq!(rt; report.as_str(), "zone refused line 1 UnknownType\n");
    Ok(())
}

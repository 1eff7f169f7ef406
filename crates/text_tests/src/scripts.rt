//! Scripts over zones that are read, and such as are refused; more of these stand in `zones.cases` of `conformance`. A proof
//! computes with a text that it sees, so texts are passed to functions.
use dns_name::Name;
use job_model::ScriptKind::{
    BadCommand, BadName, BadNumber, BadRdata, BadType, NoWorker, OpenBlock,
};
use job_model::{Ending, ScriptKind};
use job_script::JobRefusal;
use std::alloc::Global;
use std::test::Fail;
use zones_script::{Command, ZonesScript, read_script};

// The name of a text, or the root.
fn name(text: &[u8]) -> Name {
    Name::read(text, &Name::root()).unwrap_or(Name::root())
}

// The script over two zones that a text says, of which the first line is line 7.
fn script(alloc: Global, text: &[u8]) -> Result<ZonesScript, JobRefusal> {
    if text.len() > 10_000 {
        return Err(JobRefusal::Memory);
    }
    read_script(alloc, text, 7, &[name(b"example."), name(b"sub.example.")])
}

// What a command is: its word, the number of its zone or of a question's labels, and how many operations it has.
type Shape = (u8, u32, usize);

fn shape(command: &Command) -> Shape {
    match command {
        Command::Get(name, _) => (b'g', u32::from(name.labels()), 0),
        Command::Block { zone, block } => match block.ending {
            Ending::Commit => (b'c', *zone, block.operations.len()),
            Ending::Rollback => (b'r', *zone, block.operations.len()),
        },
        Command::Attach(zone) => (b'a', *zone, 0),
        Command::Detach(zone) => (b'd', *zone, 0),
    }
}

// Texts with the number of their workers, and what the commands of the last one are.
const READ: &[(&[u8], usize, &[Shape])] = &[
    (
        b"worker\nget www.sub.example. A\ndetach sub.example.\nget www.sub.example. A\nget com. A\n\
        write sub.example.\ndel www\ncommit\nattach sub.example.\nget www.sub.example. A\nattach example.\n",
        1,
        &[
            (b'g', 3, 0),
            (b'd', 1, 0),
            (b'g', 3, 0),
            (b'g', 1, 0),
            (b'c', 1, 1),
            (b'a', 1, 0),
            (b'g', 3, 0),
            (b'a', 0, 0),
        ],
    ),
    (
        b"worker\r\n\r\nworker ; second\r\nupdate Example\r\nneed @\r\n; nothing\r\nadd a 1h A 192.0.2.1\r\nrollback",
        2,
        &[(b'r', 0, 1)],
    ),
];

#[test]
fn scripts_are_read(rt: HostRuntime) -> Result<(), Fail> {
    for (text, workers, shapes) in READ {
        let script = script(rt.alloc(), text)?;
        assert_eq!(rt; script.workers.len(), *workers);
        let last = script.workers.last().ok_or("no worker")?;
        assert!(rt; last.commands.iter().map(shape).eq(shapes.iter().copied()));
    }
    Ok(())
}

// Scripts with the line of what is refused, and why.
const REFUSED: &[(&[u8], u32, ScriptKind)] = &[
    (b"attach a.\n", 7, NoWorker),
    (b"worker\nstat\n", 8, BadCommand),
    (b"worker\nget a. A b\n", 8, BadCommand),
    (b"worker\nadd a 1 A 192.0.2.1\n", 8, BadCommand),
    (b"worker\nwrite a.\n", 8, BadName),
    (b"worker\nattach \"example.\"\n", 8, BadName),
    (b"worker\nget a..b HINFO\n", 8, BadName),
    (b"worker\nget a. HINFO\n", 8, BadType),
    (b"worker\nwrite example.\nrollback\n", 9, BadCommand),
    (
        b"worker\nwrite sub.example.\ndel www.example.\n",
        9,
        BadName,
    ),
    (b"worker\nwrite example.\nadd a x A 1\n", 9, BadNumber),
    (b"worker\nwrite example.\nadd a 1 A 1\n", 9, BadRdata),
    (b"worker\nwrite example.\ndel a\n", 8, OpenBlock),
];

#[test]
fn the_first_refusal_is_told(rt: HostRuntime) {
    for (text, line, kind) in REFUSED {
        let due = JobRefusal::Refused {
            line: *line,
            kind: *kind,
        };
        assert_eq!(rt; script(rt.alloc(), text).err(), Some(due));
    }
}

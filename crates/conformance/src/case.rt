//! A run of the program, and what is due.
//!
//! A file of cases is lines. What a line is, its first character says:
//!
//! | Line | Means |
//! |---|---|
//! | empty, or `#` and words | nothing |
//! | `= NAME` | the next case begins |
//! | `words W ..` | the words behind the program's name, if not `run --origin example.` |
//! | `read N K ..` | a read gives at most N bytes (7 if not said), and the reads with the numbers K fail |
//! | `write N K ..` | the same of writes (5 if not said) |
//! | `zone` | the zone of four lines goes into the input, with the line `%%` behind it |
//! | `\| TEXT` | a line of the input; behind `due`, of the output |
//! | `+ TEXT` | the same without an end of line |
//! | `* N TEXT` | the text N times, without an end of line |
//! | `x N TEXT` | the line N times |
//! | `n N M TEXT` | the line for each number from N to M, in the place of the `#` |
//! | `due STATUS` | the exit status; the lines of the output follow, in which `?` stands for any number |
//! | `or` | the lines of another output that may come |
//! | `each read` | the case is run for each number K, up to the last, with the read K failing, and at last with none: status 5, and nothing written |
//! | `each write` | the same of writes: status 6, and what is due is written up to the call that failed |
//! | `cut N STATUS` | the case is run with its input cut after each byte up to N, and behind what a `cut` before says: the status, and the lines of the output follow |
//!
//! Workers run beside each other, so what each order of their steps gives is listed, or only what is the same in all of them.
ghost use Rattle.std.specs.Prelude.{◌<◌};

use std::alloc::{AllocError, Global};

/// The zone that most cases begin with, and the line behind it.
pub const ZONE: &str =
    "$TTL 300\n@ SOA ns hostmaster 1 3600 600 86400 60\n@ NS ns\nns A 192.0.2.1\n%%\n";

/// How a source or a sink moves bytes.
#[derive(Drop)]
pub struct Calls {
    /// At most so many in a call, one at least.
    pub most: usize,
    /// The numbers, from 1, of the calls that fail.
    pub fails: Vec<u64>,
    ghost some: { 0 < most },
}

impl Calls {
    /// No call fails.
    pub(crate) fn of(alloc: Global, most: usize) -> Calls
        requires { 0 < most }
    {
        Calls {
            most,
            fails: Vec::new(alloc),
        }
    }
}

/// Which of a case's calls fail in turn, each in a run of its own.
#[derive(Clone, Copy)]
pub enum InTurn {
    None,
    Reads,
    Writes,
}

/// What is due of an input that is cut.
#[derive(Drop)]
pub struct Cut {
    /// The most bytes that are left of it.
    pub upto: usize,
    pub status: u8,
    pub output: String,
}

/// One run, and what is due.
#[derive(Drop)]
pub struct Case {
    pub name: String,
    /// The words of the command line, the program's name first.
    pub words: Vec<String>,
    pub reads: Calls,
    pub writes: Calls,
    pub input: String,
    /// The exit status that is due.
    pub status: u8,
    /// What is due to be written: one of these.
    pub outputs: Vec<String>,
    pub in_turn: InTurn,
    /// If there are any, the input is cut after each byte.
    pub cuts: Vec<Cut>,
}

impl Case {
    /// A case without input or output.
    pub(crate) fn new(alloc: Global, name: &str) -> Result<Case, AllocError> {
        Ok(Case {
            name: String::from_str(alloc, name)?,
            words: command_line(alloc, "run --origin example.")?,
            reads: Calls::of(alloc, 7),
            writes: Calls::of(alloc, 5),
            input: String::new(alloc),
            status: 0,
            outputs: Vec::new(alloc),
            in_turn: InTurn::None,
            cuts: Vec::new(alloc),
        })
    }
}

/// The program's name, and the words between the spaces of a text.
pub(crate) fn command_line(alloc: Global, text: &str) -> Result<Vec<String>, AllocError> {
    let mut words = Vec::new(alloc);
    words.push(String::from_str(alloc, "qpzone")?)?;
    for word in text.split_whitespace() {
        words.push(String::from_str(alloc, word)?)?;
    }
    Ok(words)
}

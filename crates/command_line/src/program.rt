//! The command line that clap is given.
ghost use Rattle.std.specs.Prelude.{◌≡◌, [], IfOk, map, codes, false, true};
ghost use Rattle.command_line.specs.Prelude.{app_of, new_app, new_shape, rule_of, fields_of, option_rule, program_app, with_commands, with_options};

use clap::{Arg, ArgAction, Command};
use std::alloc::{AllocError, Global};

// An option with a value: its name, what it is, and whether it has to be given.
type Listed = (&'static str, &'static str, bool);

// Each zone's index has so many chunks.
const CHUNKS: Listed = (
    "chunks",
    "How many chunks of 1,024 cells a zone's index has, 16 to 4096; 64 if not said",
    false,
);

const LIVE_CHUNKS: Listed = (
    "chunks",
    "How many chunks of 1,024 cells the zone's index has, 16 to 4096; where not said, room for four times the zone's cells, at least 64",
    false,
);

const NAMES: Listed = (
    "names",
    "How many numbered names the zone has, 1 to 20000",
    true,
);

const ORIGIN: Listed = ("origin", "The zone's origin, read under the root", true);

const SEED: Listed = ("seed", "What the draws begin with, below 2^64", true);

const STYLE: Listed = (
    "style",
    "full: a line says all of a record; short: names and times are left out where a directive says them",
    false,
);

const DIFF_STYLE: Listed = (
    "style",
    "script: as the transactions of a script; nsupdate: as the lines that nsupdate reads; script if not said",
    false,
);

const SERIAL: Listed = (
    "serial",
    "keep: another serial is a change; ignore: an SOA that differs in its serial alone counts as the same; keep if not said",
    false,
);

const TURNS: Listed = ("turns", "How many turns each worker has, 1 to 10000", true);

static COMMANDS: &[(&str, &str, &[Listed])] = &[
    (
        "run",
        "Read a job, run it, and print a report",
        &[ORIGIN, CHUNKS],
    ),
    (
        "check",
        "Read a zone, and print how large its index is",
        &[ORIGIN, CHUNKS],
    ),
    (
        "make",
        "Make a job, run it, and print a summary",
        &[
            SEED,
            NAMES,
            TURNS,
            ("workers", "How many workers the script has, 1 to 16", true),
            CHUNKS,
        ],
    ),
    (
        "dump",
        "Read a zone, and write it as a master file",
        &[ORIGIN, STYLE, CHUNKS],
    ),
    (
        "feed",
        "Read a zone and one list of commands, run it by several workers, and print a report",
        &[
            ORIGIN,
            (
                "workers",
                "How many workers run the commands, 1 to 16",
                true,
            ),
            CHUNKS,
        ],
    ),
    (
        "size",
        "Read a job, and print how many chunks its index needs",
        &[ORIGIN],
    ),
    (
        "zones",
        "Read several zones and a job over them, run it, and print a report",
        &[CHUNKS],
    ),
    (
        "diff",
        "Read two zones, and write what makes of the first the second",
        &[ORIGIN, DIFF_STYLE, SERIAL],
    ),
    (
        "live",
        "Read a zone, and answer the lines behind it one by one",
        &[ORIGIN, LIVE_CHUNKS],
    ),
];

fn option<'a>(alloc: Global, name: &'a str, help: &'a str, required: bool) -> Arg<'a>
    ensures rule { rule_of result ≡ option_rule name.entry.now required }
    ensures local { result.global ≡ false }
{
    Arg::new(alloc, name)
        .long(name)
        .help(help)
        .action(ArgAction::Set)
        .required(required)
}

// A command with its options.
fn command_of<'a>(
    alloc: Global,
    name: &'a str,
    about: &'a str,
    options: &[Listed],
) -> Result<Command<'a>, AllocError>
    ensures app { IfOk result (λ c. app_of c ≡ with_options (new_app name.entry.now) (map (λ o. option_rule o.0.now o.2) options.now)) }
    ensures local { IfOk result (λ c. (fields_of c).has_globals ≡ false) }
{
    let mut command = Command::new(alloc, name).about(about);
    for (long, help, required) in options {
        command = command.arg(option(alloc, long, help, *required))?;
    }
    Ok(command)
}

// The program's own command, of which the others are parts.
fn whole<'a>(alloc: Global) -> Command<'a>
    ensures { app_of result ≡ record { top = record (new_shape (codes "qpzone")) { subcommand_required = true }; subs = [] } }
{
    let about = "Answers questions about a DNS zone while it is being changed";
    Command::new(alloc, "qpzone")
        .about(about)
        .subcommand_required(true)
}

// Commands join the program's own.
fn with_commands<'a>(
    alloc: Global,
    whole: Command<'a>,
    commands: &[(&'a str, &'a str, &[Listed])],
) -> Result<Command<'a>, AllocError>
    ensures { IfOk result (λ c. app_of c ≡ with_commands (app_of whole.entry)
        (map (λ o. (with_options (new_app o.0.now) (map (λ r. option_rule r.0.now r.2) o.2.now)).top) commands.now)) }
{
    let mut command = whole;
    for (name, about, options) in commands {
        let listed = command_of(alloc, name, about, options)?;
        command = command.subcommand(listed)?;
    }
    Ok(command)
}

/// The program's command line.
pub fn program<'a>(alloc: Global) -> Result<Command<'a>, AllocError>
    ensures { IfOk result (λ c. app_of c ≡ program_app) }
{
    with_commands(alloc, whole(alloc), COMMANDS)
}

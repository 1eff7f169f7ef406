//! Words that aren't plain, as clap reads them.
ghost use Rattle.std.specs.Prelude.{◌≡◌, ◌≤◌, ℕ, List, map, codes, Some, None, Option, Ok, IfOk, IsErr, IfSome, option_and_then};
ghost use Rattle.command_line.specs.Prelude.{option_map, string_bytes, found_of, subcommand_rows_of};
ghost use Rattle.command_line.specs.Prelude.{first_of, rows_of, kind_of, OutOfMemory, load_view, invocation_view, verb_view};
ghost use Rattle.command_line.specs.Invocations as lines;
ghost use Rattle.command_line.specs.Parsed as parsed;
ghost use Rattle.command_line.specs.Numbers as numbers;

use crate::asked::made_origin;
use crate::invocation::{Asked, Comparison, Crew, Invocation, Verb};
use crate::numbers::{
    DEFAULT_CHUNKS, MOST_NAMES, MOST_TURNS, MOST_WORKERS, chunks_of, seed_of, within,
};
use crate::options::style_of;
use crate::program::program;
use clap::ArgMatches;
use clap::error::{Error, ErrorKind};
use dns_name::Name;
use job_make::Load;
use std::alloc::{AllocError, Global};
use zone_diff::{DiffStyle, Serial};
use zone_model::Style;

// The value of an option.
fn value_in<'a>(matches: &ArgMatches<'a>, id: &str) -> Option<&'a str>
    ensures { option_map (λ s. s.now) result ≡ first_of id.now (rows_of (found_of matches.now)) }
{
    matches.get_str(id)
}

// A number within limits, if it is given.
fn number_in(value: Option<&str>, least: u32, most: u32) -> Option<u32>
    ensures value { result ≡ option_and_then (numbers.within least most) (option_map (λ s. s.now) value.entry) }
    ensures limits { IfSome result (λ n. (least ≤ n) × (n ≤ most)) }
{
    within(value?.as_bytes(), least, most)
}

// A seed, if it is given.
fn seed_in(value: Option<&str>) -> Option<u64>
    ensures { result ≡ option_and_then numbers.seed_of (option_map (λ s. s.now) value.entry) }
{
    seed_of(value?.as_bytes())
}

// The number of chunks, which may be left out.
fn chunks_in(value: Option<&str>) -> Option<u32>
    ensures value { result ≡ parsed.chunks_in (option_map (λ s. s.now) value.entry) }
    ensures limits { IfSome result (λ n. (16 ≤ n) × (n ≤ 4096)) }
{
    match value {
        Some(value) => chunks_of(value.as_bytes()),
        None => Some(DEFAULT_CHUNKS),
    }
}

// The origin, read under the root.
fn origin_in(value: Option<&str>) -> Option<Name>
    ensures { result ≡ parsed.origin_in (option_map (λ s. s.now) value.entry) }
{
    Name::read(value?.as_bytes(), &Name::root()).ok()
}

// The style, which may be left out.
fn style_in(value: Option<&str>) -> Option<Style>
    ensures { result ≡ parsed.style_in (option_map (λ s. s.now) value.entry) }
{
    match value {
        Some(value) => style_of(value.as_bytes()),
        None => Some(Style::Full),
    }
}

// What the options of a command that reads say.
fn reading_in(matches: &ArgMatches<'_>, verb: Option<Verb>) -> Option<Invocation>
    ensures { option_map invocation_view result ≡ parsed.reading_in (option_map verb_view verb) (rows_of (found_of matches.now)) }
{
    Some(Invocation {
        verb: verb?,
        origin: origin_in(value_in(matches, "origin"))?,
        chunks: chunks_in(value_in(matches, "chunks"))?,
    })
}

// What the options of the command that writes a zone say of its style.
fn dump_in(matches: &ArgMatches<'_>) -> Option<Verb>
    ensures { option_map verb_view result ≡ option_map lines.Dump (parsed.style_in (first_of (codes "style") (rows_of (found_of matches.now)))) }
{
    let style = style_in(value_in(matches, "style"))?;
    Some(Verb::Dump(style))
}

// What the options of the command that runs one list say of its workers.
fn feed_in(matches: &ArgMatches<'_>) -> Option<Verb>
    ensures { option_map verb_view result ≡ option_map lines.Feed
        (option_and_then numbers.workers_of (first_of (codes "workers") (rows_of (found_of matches.now)))) }
{
    let workers = number_in(value_in(matches, "workers"), 1, MOST_WORKERS)?;
    Some(Verb::Feed(Crew { workers }))
}

// What the options of the command that sizes an index say.
fn sizing_in(matches: &ArgMatches<'_>) -> Option<Invocation>
    ensures { option_map invocation_view result ≡ parsed.sizing_in (rows_of (found_of matches.now)) }
{
    Some(Invocation {
        verb: Verb::Size,
        origin: origin_in(value_in(matches, "origin"))?,
        chunks: DEFAULT_CHUNKS,
    })
}

// What the options of the command over several zones say.
fn zones_in(matches: &ArgMatches<'_>) -> Option<Invocation>
    ensures { option_map invocation_view result ≡ parsed.zones_in (rows_of (found_of matches.now)) }
{
    Some(Invocation {
        verb: Verb::Zones,
        origin: Name::root(),
        chunks: chunks_in(value_in(matches, "chunks"))?,
    })
}

// The style of a difference, which may be left out.
fn diff_style_in(value: Option<&str>) -> Option<DiffStyle>
    ensures { result ≡ parsed.diff_style_in (option_map (λ s. s.now) value.entry) }
{
    match value {
        Some("script") => Some(DiffStyle::Script),
        Some("nsupdate") => Some(DiffStyle::Nsupdate),
        Some(_) => None,
        None => Some(DiffStyle::Script),
    }
}

// What is done with serials, which may be left out.
fn serial_in(value: Option<&str>) -> Option<Serial>
    ensures { result ≡ parsed.serial_in (option_map (λ s. s.now) value.entry) }
{
    match value {
        Some("keep") => Some(Serial::Keep),
        Some("ignore") => Some(Serial::Ignore),
        Some(_) => None,
        None => Some(Serial::Keep),
    }
}

// What the options of the command that compares zones say of how.
fn diff_in(matches: &ArgMatches<'_>) -> Option<Verb>
    ensures { option_map verb_view result ≡ parsed.diff_in (rows_of (found_of matches.now)) }
{
    Some(Verb::Diff(Comparison {
        style: diff_style_in(value_in(matches, "style"))?,
        serial: serial_in(value_in(matches, "serial"))?,
    }))
}

// What the options of the command that compares zones say.
fn differing_in(matches: &ArgMatches<'_>) -> Option<Invocation>
    ensures { option_map invocation_view result ≡ parsed.differing_in (rows_of (found_of matches.now)) }
{
    Some(Invocation {
        verb: diff_in(matches)?,
        origin: origin_in(value_in(matches, "origin"))?,
        chunks: DEFAULT_CHUNKS,
    })
}

// The number of chunks that is asked for, if one is.
fn asked_chunks(value: Option<&str>) -> Option<Asked>
    ensures { option_map (λ a. a.chunks) result ≡ parsed.chunks_asked (option_map (λ s. s.now) value.entry) }
{
    match value {
        Some(value) => Some(Asked {
            chunks: Some(chunks_of(value.as_bytes())?),
        }),
        None => Some(Asked { chunks: None }),
    }
}

// What the options of a session say of its chunks.
fn live_in(matches: &ArgMatches<'_>) -> Option<Verb>
    ensures { option_map verb_view result ≡ option_map lines.Live (parsed.chunks_asked (first_of (codes "chunks") (rows_of (found_of matches.now)))) }
{
    let asked = asked_chunks(value_in(matches, "chunks"))?;
    Some(Verb::Live(asked))
}

// The load that options say.
fn load_in(matches: &ArgMatches<'_>) -> Option<Load>
    ensures { option_map load_view result ≡ parsed.load_in (rows_of (found_of matches.now)) }
{
    Some(Load {
        seed: seed_in(value_in(matches, "seed"))?,
        names: number_in(value_in(matches, "names"), 1, MOST_NAMES)?,
        turns: number_in(value_in(matches, "turns"), 1, MOST_TURNS)?,
        workers: number_in(value_in(matches, "workers"), 1, MOST_WORKERS)?,
    })
}

// What the options of the command that makes a load say.
fn making_in(matches: &ArgMatches<'_>) -> Option<Invocation>
    ensures { option_map invocation_view result ≡ parsed.making_by (parsed.load_in (rows_of (found_of matches.now)))
        (parsed.chunks_in (first_of (codes "chunks") (rows_of (found_of matches.now)))) }
{
    Some(Invocation {
        verb: Verb::Make(load_in(matches)?),
        origin: made_origin(),
        chunks: chunks_in(value_in(matches, "chunks"))?,
    })
}

// What a command with its options says.
fn asked_by(name: &str, matches: &ArgMatches<'_>) -> Option<Invocation>
    ensures { option_map invocation_view result ≡ parsed.asked_by name.now (rows_of (found_of matches.now)) }
{
    match name {
        "run" => reading_in(matches, Some(Verb::Run)),
        "check" => reading_in(matches, Some(Verb::Check)),
        "make" => making_in(matches),
        "dump" => reading_in(matches, dump_in(matches)),
        "feed" => reading_in(matches, feed_in(matches)),
        "size" => sizing_in(matches),
        "zones" => zones_in(matches),
        "diff" => differing_in(matches),
        "live" => reading_in(matches, live_in(matches)),
        _ => None,
    }
}

// What the matches of a command line say.
fn asked_in(matches: &ArgMatches<'_>) -> Option<Invocation>
    ensures { option_map invocation_view result ≡ parsed.asked_in (subcommand_rows_of matches.now) }
{
    let (name, inner) = matches.subcommand()?;
    asked_by(name, inner)
}

// What is told of words that clap doesn't take: that they are refused, but where clap wanted memory.
fn refused_by(error: &Error) -> Result<Option<Invocation>, AllocError>
    ensures refused { (kind_of error.now ≡ OutOfMemory → ⊥) → result ≡ Ok None }
    ensures memory { kind_of error.now ≡ OutOfMemory → IsErr result }
{
    if error.kind() == ErrorKind::OutOfMemory {
        Err(AllocError)
    } else {
        Ok(None)
    }
}

/// What words say as clap reads them; None where it refuses them, or an origin isn't a name, or a number isn't decimal digits
/// within its limits.
pub fn parsed_of(alloc: Global, words: &[String]) -> Result<Option<Invocation>, AllocError>
    ensures { IfOk result (λ i. option_map invocation_view i ≡ parsed.parsed_of (map string_bytes words.now)) }
{
    let command = program(alloc)?;
    match command.try_get_matches_from(words) {
        Ok(matches) => Ok(asked_in(&matches)),
        Err(error) => refused_by(&error),
    }
}

//! What a command with its options asks for.
ghost use Rattle.std.specs.Prelude.{◌≡◌, ◌∷◌, [], ℕ, List, map, codes, Some, None, Option};
ghost use Rattle.command_line.specs.Prelude.{option_map, string_bytes, made_origin, load_view, asked_of, dumping_of};
ghost use Rattle.command_line.specs.Prelude.{differing_of, feeding_of, makes_nothing, making_of, plain_of, reading_of, sizing_of, under_origin};
ghost use Rattle.command_line.specs.Invocations.{Live};
ghost use Rattle.command_line.specs.Prelude.{zones_of, chunks_given, load_of, invocation_view, options_view, verb_view};

use crate::given::Options;
use crate::invocation::{Asked, Comparison, Crew, Invocation, Verb};
use crate::numbers::DEFAULT_CHUNKS;
use crate::options::options_of;
use dns_name::Name;
use job_make::Load;
use zone_diff::{DiffStyle, Serial};
use zone_model::Style;

// What is done under an origin, over a number of chunks that may be left out.
fn invocation(options: &Options, verb: Verb, origin: Name) -> Invocation
    ensures { invocation_view result ≡ record { verb = verb_view verb; origin = origin; chunks = chunks_given (options_view options.now) } }
{
    let chunks = options.chunks.unwrap_or(DEFAULT_CHUNKS);
    Invocation {
        verb,
        origin,
        chunks,
    }
}

// An origin is given, and perhaps a number of chunks.
fn under_origin(options: &Options, verb: Verb) -> Option<Invocation>
    ensures { option_map invocation_view result ≡ under_origin (options_view options.now) (verb_view verb) }
{
    Some(invocation(options, verb, options.origin?))
}

// Nothing of a load is given but perhaps its workers.
fn makes_nothing(options: &Options) -> bool
    ensures { result ≡ makes_nothing (options_view options.now) }
{
    options.seed.is_none() && options.names.is_none() && options.turns.is_none()
}

fn reading_of(verb: Verb, options: &Options) -> Option<Invocation>
    ensures { option_map invocation_view result ≡ reading_of (verb_view verb) (options_view options.now) }
{
    if makes_nothing(options) && options.style.is_none() && options.workers.is_none() {
        under_origin(options, verb)
    } else {
        None
    }
}

fn dumping_of(options: &Options) -> Option<Invocation>
    ensures { option_map invocation_view result ≡ dumping_of (options_view options.now) }
{
    if makes_nothing(options) && options.workers.is_none() {
        under_origin(options, Verb::Dump(options.style.unwrap_or(Style::Full)))
    } else {
        None
    }
}

fn feeding_of(options: &Options) -> Option<Invocation>
    ensures { option_map invocation_view result ≡ feeding_of (options_view options.now) }
{
    if makes_nothing(options) && options.style.is_none() {
        let workers = options.workers?;
        under_origin(options, Verb::Feed(Crew { workers }))
    } else {
        None
    }
}

// Nothing is given but an origin.
fn sizing_of(options: &Options) -> Option<Invocation>
    ensures { option_map invocation_view result ≡ sizing_of (options_view options.now) }
{
    match options.chunks {
        Some(_) => None,
        None => reading_of(Verb::Size, options),
    }
}

// The same where two zones are compared.
fn differing_of(options: &Options) -> Option<Invocation>
    ensures { option_map invocation_view result ≡ differing_of (options_view options.now) }
{
    let comparison = Comparison {
        style: DiffStyle::Script,
        serial: Serial::Keep,
    };
    match options.chunks {
        Some(_) => None,
        None => reading_of(Verb::Diff(comparison), options),
    }
}

// An origin is given, and perhaps a number of chunks, which is told apart from none.
fn living_of(options: &Options) -> Option<Invocation>
    ensures { option_map invocation_view result ≡ reading_of (Live options.now.chunks) (options_view options.now) }
{
    let asked = Asked {
        chunks: options.chunks,
    };
    reading_of(Verb::Live(asked), options)
}

// Nothing is given but perhaps a number of chunks.
fn zones_of(options: &Options) -> Option<Invocation>
    ensures { option_map invocation_view result ≡ zones_of (options_view options.now) }
{
    if !makes_nothing(options) || options.origin.is_some() {
        return None;
    }
    if options.style.is_some() || options.workers.is_some() {
        return None;
    }
    Some(invocation(options, Verb::Zones, Name::root()))
}

// The load whose numbers are all given.
fn load_of(options: &Options) -> Option<Load>
    ensures { option_map load_view result ≡ load_of (options_view options.now) }
{
    Some(Load {
        seed: options.seed?,
        names: options.names?,
        turns: options.turns?,
        workers: options.workers?,
    })
}

/// The origin that a load's names are under.
pub fn made_origin() -> Name
    ensures { result ≡ made_origin }
{
    match Name::read(b"example", &Name::root()) {
        Ok(origin) => origin,
        // It is a name.
        Err(_) => unreachable!(),
    }
}

fn making_of(options: &Options) -> Option<Invocation>
    ensures { option_map invocation_view result ≡ making_of (options_view options.now) }
{
    if options.origin.is_some() || options.style.is_some() {
        return None;
    }
    let load = load_of(options)?;
    Some(invocation(options, Verb::Make(load), made_origin()))
}

// What a command with these options asks for.
fn asked_of(command: &str, options: &Options) -> Option<Invocation>
    ensures { option_map invocation_view result ≡ asked_of command.now (options_view options.now) }
{
    match command {
        "run" => reading_of(Verb::Run, options),
        "check" => reading_of(Verb::Check, options),
        "make" => making_of(options),
        "dump" => dumping_of(options),
        "feed" => feeding_of(options),
        "size" => sizing_of(options),
        "zones" => zones_of(options),
        "diff" => differing_of(options),
        "live" => living_of(options),
        _ => None,
    }
}

/// What plain words ask for, the first of which is the program's name; None where they aren't plain.
pub fn plain_of(words: &[String]) -> Option<Invocation>
    ensures { option_map invocation_view result ≡ plain_of (map string_bytes words.now) }
{
    let (_program, behind) = words.split_first()?;
    let (command, options) = behind.split_first()?;
    match options_of(options) {
        Some(options) => asked_of(command.as_str(), &options),
        None => None,
    }
}

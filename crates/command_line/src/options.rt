//! Options, each with its value.
ghost use Rattle.std.specs.Prelude.{◌≡◌, ◌<◌, ◌≤◌, ◌+◌, ℕ, List, length, map, Some, None, Option, IfSome};
ghost use Rattle.command_line.specs.Prelude.{option_map, string_bytes, chunks_of, names_of, seed_of, turns_of, workers_of};
ghost use Rattle.command_line.specs.Prelude.{first, no_options, options_from, origin_of, style_of, with_option, options_view};

use crate::given::Options;
use crate::numbers::{MOST_NAMES, MOST_TURNS, MOST_WORKERS, chunks_of, seed_of, within};
use dns_name::Name;
use zone_model::Style;

// The origin, read under the root.
fn origin_of(value: &[u8]) -> Option<Name>
    ensures { result ≡ origin_of value.now }
{
    if value.is_empty() || value[0] == b'-' {
        return None;
    }
    Name::read(value, &Name::root()).ok()
}

/// A style, by its word.
pub fn style_of(value: &[u8]) -> Option<Style>
    ensures { result ≡ style_of value.now }
{
    if value == b"full".as_slice() {
        return Some(Style::Full);
    }
    if value == b"short".as_slice() {
        return Some(Style::Short);
    }
    None
}

// A value that wasn't given before.
fn first<T: Copy>(before: Option<T>, value: Option<T>) -> Option<T>
    ensures { result ≡ first before value }
{
    match before {
        Some(_) => None,
        None => value,
    }
}

// An option joins those before it.
fn with_option(mut options: Options, option: &[u8], value: &[u8]) -> Option<Options>
    ensures { option_map options_view result ≡ with_option option.now value.now (options_view options) }
{
    if option == b"--origin".as_slice() {
        options.origin = Some(first(options.origin, origin_of(value))?);
        return Some(options);
    }
    if option == b"--chunks".as_slice() {
        options.chunks = Some(first(options.chunks, chunks_of(value))?);
        return Some(options);
    }
    if option == b"--style".as_slice() {
        options.style = Some(first(options.style, style_of(value))?);
        return Some(options);
    }
    if option == b"--workers".as_slice() {
        options.workers = Some(first(options.workers, within(value, 1, MOST_WORKERS))?);
        return Some(options);
    }
    if option == b"--seed".as_slice() {
        options.seed = Some(first(options.seed, seed_of(value))?);
        return Some(options);
    }
    if option == b"--names".as_slice() {
        options.names = Some(first(options.names, within(value, 1, MOST_NAMES))?);
        return Some(options);
    }
    if option == b"--turns".as_slice() {
        options.turns = Some(first(options.turns, within(value, 1, MOST_TURNS))?);
        return Some(options);
    }
    None
}

// Words join the options, each with its value behind it.
#[tactic(auto, unfolding(crate::specs::Options::options_from))]
fn options_from(words: &[String], options: Options) -> Option<Options>
    ensures { option_map options_view result ≡ options_from (map string_bytes words.now) (options_view options) }
{
    if words.is_empty() {
        return Some(options);
    }
    if words.len() == 1 {
        return None;
    }
    match with_option(options, words[0].as_bytes(), words[1].as_bytes()) {
        Some(more) => options_from(&words[2..], more),
        None => None,
    }
}

/// The options that words say.
pub fn options_of(words: &[String]) -> Option<Options>
    ensures { option_map options_view result ≡ options_from (map string_bytes words.now) no_options }
{
    let none = Options {
        origin: None,
        chunks: None,
        style: None,
        workers: None,
        seed: None,
        names: None,
        turns: None,
    };
    options_from(words, none)
}

//! Numbers of the command line: decimal digits within limits.
ghost use Rattle.std.specs.Prelude.{◌≡◌, ◌≤◌, ◌-◌, ◌^◌, ℕ, List, Some, None, Option, IfSome};
ghost use Rattle.command_line.specs.Prelude.{number, digits_from, chunks_of, seed_of, within};

use zone_text::number;

/// The number of chunks where none is given, and its limits.
pub const DEFAULT_CHUNKS: u32 = 64;

const LEAST_CHUNKS: u32 = 16;

const MOST_CHUNKS: u32 = 4_096;

/// The most names of a load, and the most turns of each of its workers.
pub const MOST_NAMES: u32 = 20_000;

pub const MOST_TURNS: u32 = 10_000;

/// The most workers.
pub const MOST_WORKERS: u32 = 16;

/// A number from a least to a greatest one.
pub fn within(value: &[u8], least: u32, most: u32) -> Option<u32>
    ensures value { result ≡ within least most value.now }
    ensures limits { IfSome result (λ n. (least ≤ n) × (n ≤ most)) }
{
    match number(value, most) {
        Some(given) if given >= least => Some(given),
        _ => None,
    }
}

/// A number of chunks.
pub fn chunks_of(value: &[u8]) -> Option<u32>
    ensures value { result ≡ chunks_of value.now }
    ensures limits { IfSome result (λ n. (16 ≤ n) × (n ≤ 4096)) }
{
    within(value, LEAST_CHUNKS, MOST_CHUNKS)
}

/// A seed: any number of 64 bits.
#[tactic(auto, unfolding(zone_model::specs::Texts::number, zone_model::specs::Texts::digits_from))]
pub fn seed_of(value: &[u8]) -> Option<u64>
    ensures { result ≡ seed_of value.now }
{
    if value.is_empty() {
        return None;
    }
    let mut seed = 0u64;
    for octet in value {
        if !octet.is_ascii_digit() {
            return None;
        }
        let digit = u64::from(*octet - b'0');
        if seed > (u64::MAX - digit) / 10 {
            return None;
        }
        seed = seed * 10 + digit;
    }
    Some(seed)
}
